// What the records of chains say, and the slots of a lent buffer, which are filled from the front. The count
// stops at one past the slots there are.
ghost use Rattle.std.specs.Prelude.{◌≡◌, [], ◌∷◌, ◌+◌, ◌*◌, ◌≤◌, length};
ghost use Rattle.spec.specs.Limits.{solution_size};
ghost use Rattle.spec.specs.Order.{solution_edge};
ghost use Rattle.spec.specs.Records.{no_edge};
ghost use Rattle.records.specs.Octets.{record_octets};
ghost use Rattle.graph.specs.Pushed.{put_at, push_record, Room, Pushes};

use spec::{Edge, Solution, SolutionEdge};

pub(crate) fn weight(e: Edge) -> u16
    ensures { (result ≡ e.weight) × (result ≤ 255) }
{
    u16::from(e.weight)
}

fn edge(e: Edge) -> SolutionEdge
    ensures { result ≡ solution_edge e }
{
    SolutionEdge {
        position: e.position,
        shortcut: e.shortcut,
        peer: e.peer,
        construction: e.construction,
    }
}

pub(crate) fn no_edge() -> SolutionEdge
    ensures { result ≡ no_edge }
{
    SolutionEdge {
        position: 0,
        shortcut: 0,
        peer: 0,
        construction: false,
    }
}

// ---- the slots

// Writes a record at slot n: an array by value in a function of its own, which the compiler makes one store of.
fn put_record(out: &mut [u8], n: usize, r: [u8; Solution::SIZE])
    requires { solution_size * n + solution_size ≤ length out.old }
    ensures { out.new ≡ put_at out.old n r }
{
    let at = Solution::SIZE * n;
    out[at..at + Solution::SIZE].copy_from_slice(&r);
}

// Writes a record at slot n, if there is one; the count after it.
fn push(out: &mut [u8], slots: usize, n: usize, s: Solution) -> usize
    requires { solution_size * slots ≤ length out.old }
    ensures { (result, out.new) ≡ push_record slots (n, out.old) (record_octets s) }
{
    if n < slots {
        put_record(out, n, records::solution_octets(s));
        return n + 1;
    }
    slots + 1
}

pub(crate) fn push_one(out: &mut [u8], slots: usize, n: usize, e: Edge) -> usize
    requires { Room slots n out.old }
    ensures { Pushes slots (n, out.old) (result, out.new) ((e ∷ []) ∷ []) }
{
    let s = Solution::new(weight(e), 1, [edge(e), no_edge(), no_edge()]);
    push(out, slots, n, s)
}

pub(crate) fn push_two(out: &mut [u8], slots: usize, n: usize, e: Edge, f: Edge) -> usize
    requires { Room slots n out.old }
    ensures { Pushes slots (n, out.old) (result, out.new) ((e ∷ f ∷ []) ∷ []) }
{
    let s = Solution::new(weight(e) + weight(f), 2, [edge(e), edge(f), no_edge()]);
    push(out, slots, n, s)
}

pub(crate) fn push_three(out: &mut [u8], slots: usize, n: usize, e: Edge, f: Edge, g: Edge) -> usize
    requires { Room slots n out.old }
    ensures { Pushes slots (n, out.old) (result, out.new) ((e ∷ f ∷ g ∷ []) ∷ []) }
{
    let cost = weight(e) + weight(f) + weight(g);
    let s = Solution::new(cost, 3, [edge(e), edge(f), edge(g)]);
    push(out, slots, n, s)
}
