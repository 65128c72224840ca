// The search for chains: each chain found is pushed into the lent slots. Every loop stops once the count
// is past the slots.
ghost use Rattle.std.specs.Prelude.{◌≡◌, ◌⊎◌, true, false, ◌-◌, ◌≤◌, ◌<◌, if◌then◌else◌};
ghost use mathlib.Core.List.{flat_map};
ghost use Rattle.spec.specs.declared.Vertex.TheVariants.{AS};
ghost use Rattle.spec.specs.Limits.{max_segments};
ghost use Rattle.spec.specs.Basics.{range};
ghost use Rattle.spec.specs.Book.{segment_at, segment_count, cores};
ghost use Rattle.graph.specs.declared.search.Before.TheVariants.{Link};
ghost use Rattle.graph.specs.Lookup.{between, found_edges};
ghost use Rattle.graph.specs.Leaving.{entry_count, peer_count_of, peer_up, ups_at};
ghost use Rattle.graph.specs.Search.{over_firsts, ends_at_as, chains_from, across_with, chains_with, last_in, chains_in, found_chains};
ghost use Rattle.graph.specs.EdgeFound.{whole_edges};
ghost use Rattle.graph.specs.Pushed.{Room, Pushes};
ghost use Rattle.graph.specs.FirstOfEquals.{first_at};
ghost use Rattle.graph.specs.Prepared.{begins, arrives, Planned, Prepared};

use crate::edges::EdgeFound;
use crate::opened::{Ends, Opened};
use crate::{edges, first_of_equals, slots};
use spec::{Edge, IsdAsn, Limits, Vertex};

// What is worked out before the search: for each position whether chains may begin there, and for each and the one past
// the last the next position from there on where chains may arrive, by which the loop over last edges goes.
#[derive(Clone, Copy)]
struct Plan {
    begins: [bool; Limits::SEGMENTS],
    nexts: [u8; Limits::SEGMENTS + 1],
}

// What is asked: how many segments are core, how many there are, where chains begin and arrive.
#[derive(Clone, Copy)]
struct Query {
    cores: u8,
    count: u8,
    src: IsdAsn,
    dst: IsdAsn,
}

// What stands before a last edge: one that ends at a peering link, one that ends at an AS, or two, of which the second
// ends at an AS. An enum and no closure for the step, since it says two things: how an edge is found, and how many are pushed.
#[derive(Clone, Copy)]
enum Before {
    Link,
    One,
    Two,
}

// ---- a last edge

// The stored edge of a non-core segment from a vertex to an AS. The vertex is told to be a link, or else the AS a.
fn edge_from(
    opened: &Opened,
    k: u8,
    before: Before,
    v: Vertex,
    a: IsdAsn,
    w: IsdAsn,
) -> Option<EdgeFound>
    requires book_bound { (cores opened.now.book.now ≤ k) × (k < segment_count opened.now.book.now) }
    requires fact { (before ≡ Link) ⊎ (v ≡ AS a) }
    ensures { whole_edges k v w result ≡ between (segment_at opened.now.book.now k) v (AS w) }
{
    match before {
        Before::Link => edges::edge_to_as(opened, k, v, w),
        Before::One => edges::edge_between_ases(opened, k, a, w),
        Before::Two => edges::edge_between_ases(opened, k, a, w),
    }
}

// ---- the search

// A search: the opened book and its plan, what is asked, and how many slots there are.
#[derive(Clone, Copy)]
struct Searching<'a> {
    opened: Opened<'a>,
    plan: &'a Plan,
    q: Query,
    slots: usize,
    ghost prepared: { Prepared opened.book.now plan.now.begins plan.now.nexts q.src q.dst q.cores q.count },
}

impl Searching<'_> {
    // The edge f, or e and f, and one of the non-core segment at k that arrives.
    fn last_edge_in(
        &self,
        k: u8,
        before: Before,
        e: Edge,
        f: Edge,
        a: IsdAsn,
        out: &mut [u8],
        n: usize,
    ) -> usize
        requires book_bound { (cores self.now.opened.book.now ≤ k) × (k < segment_count self.now.opened.book.now) }
        requires fact { (before ≡ Link) ⊎ (f.dst ≡ AS a) }
        requires room { Room self.now.slots n out.old }
        ensures { Pushes self.now.slots (n, out.old) (result, out.new) (last_in self.now.opened.book.now self.now.q.dst before e f (segment_at self.now.opened.book.now k)) }
    {
        let from = f.dst;
        let dst = self.q.dst;
        let Some(j) = edge_from(&self.opened, k, before, from, a, dst) else {
            return n;
        };
        let g = edges::whole_edge(k, from, dst, j);
        match before {
            Before::Link => slots::push_two(out, self.slots, n, f, g),
            Before::One => slots::push_two(out, self.slots, n, f, g),
            Before::Two => slots::push_three(out, self.slots, n, e, f, g),
        }
    }

    // The same for all. Where f ends is told, so that no turn asks it again: at a link, or else at the AS a.
    fn last_edges(
        &self,
        before: Before,
        e: Edge,
        f: Edge,
        a: IsdAsn,
        out: &mut [u8],
        start: usize,
    ) -> usize
        requires fact { (before ≡ Link) ⊎ (f.dst ≡ AS a) }
        requires room { Room self.now.slots start out.old }
        ensures { Pushes self.now.slots (start, out.old) (result, out.new) (over_firsts (last_in self.now.opened.book.now self.now.q.dst before e f) self.now.opened.book.now self.now.q.cores (self.now.q.count - self.now.q.cores)) }
    {
        let mut n = start;
        let mut k = self.plan.nexts[usize::from(self.q.cores)];
        while k < self.q.count {
            if self.slots < n {
                return n;
            }
            n = self.last_edge_in(k, before, e, f, a, out, n);
            k = self.plan.nexts[usize::from(k) + 1];
        }
        n
    }

    // ---- a second edge

    // An edge, and an edge of a core segment that follows it, to an AS: it arrives, or a third follows.
    fn across_with(&self, e: Edge, f: Edge, out: &mut [u8], n: usize) -> usize
        requires f_value { ends_at_as f ≡ true }
        requires room { Room self.now.slots n out.old }
        ensures { Pushes self.now.slots (n, out.old) (result, out.new) (across_with self.now.opened.book.now self.now.q.dst e f) }
    {
        let to = f.dst;
        let dst = self.q.dst;
        if to == Vertex::AS(dst) {
            return slots::push_two(out, self.slots, n, e, f);
        }
        let Vertex::AS(a) = to else {
            return n;
        };
        self.last_edges(Before::Two, e, f, a, out, n)
    }

    // The same for the edge of the core segment at k that follows.
    fn across_in(&self, k: u8, e: Edge, out: &mut [u8], n: usize) -> usize
        requires k_lt_cores { k < self.now.q.cores }
        requires core_value { e.core ≡ false }
        requires room { Room self.now.slots n out.old }
        ensures { Pushes self.now.slots (n, out.old) (result, out.new) (chains_with self.now.opened.book.now self.now.q.dst e (segment_at self.now.opened.book.now k)) }
    {
        let from = e.dst;
        let found = edges::core_leaving(&self.opened, k, from);
        match found {
            Some(f) => self.across_with(e, f, out, n),
            None => n,
        }
    }

    fn across(&self, e: Edge, out: &mut [u8], start: usize) -> usize
        requires core_value { e.core ≡ false }
        requires room { Room self.now.slots start out.old }
        ensures { Pushes self.now.slots (start, out.old) (result, out.new) (over_firsts (chains_with self.now.opened.book.now self.now.q.dst e) self.now.opened.book.now 0 self.now.q.cores) }
    {
        let mut n = start;
        for k in 0..self.q.cores {
            if self.slots < n {
                return n;
            }
            if self.plan.begins[usize::from(k)] {
                n = self.across_in(k, e, out, n);
            }
        }
        n
    }

    // ---- a first edge

    // The chains that begin with an edge.
    fn chains_from(&self, e: Edge, out: &mut [u8], n: usize) -> usize
        requires room { Room self.now.slots n out.old }
        ensures { Pushes self.now.slots (n, out.old) (result, out.new) (chains_from self.now.opened.book.now self.now.q.dst e) }
    {
        let to = e.dst;
        let dst = self.q.dst;
        if to == Vertex::AS(dst) {
            return slots::push_one(out, self.slots, n, e);
        }
        let Vertex::AS(a) = to else {
            return self.last_edges(Before::Link, e, e, dst, out, n);
        };
        if e.core {
            return self.last_edges(Before::One, e, e, a, out, n);
        }
        let m = self.across(e, out, n);
        self.last_edges(Before::One, e, e, a, out, m)
    }

    // The same for an edge that may not be there.
    fn chains_of(&self, found: Option<Edge>, out: &mut [u8], n: usize) -> usize
        requires room { Room self.now.slots n out.old }
        ensures { Pushes self.now.slots (n, out.old) (result, out.new) (flat_map (chains_from self.now.opened.book.now self.now.q.dst) (found_edges found)) }
    {
        match found {
            Some(e) => self.chains_from(e, out, n),
            None => n,
        }
    }

    // The chains that begin at the leaf with an edge to a peering end of entry i.
    fn peer_chains(&self, k: u8, i: u8, out: &mut [u8], start: usize) -> usize
        requires k_bound { k < segment_count self.now.opened.book.now }
        requires i_bound { i < entry_count (segment_at self.now.opened.book.now k) }
        requires room { Room self.now.slots start out.old }
        ensures { Pushes self.now.slots (start, out.old) (result, out.new) (flat_map (chains_from self.now.opened.book.now self.now.q.dst) (flat_map (peer_up (segment_at self.now.opened.book.now k) i) (range 0 (peer_count_of (segment_at self.now.opened.book.now k) i)))) }
    {
        let count = self.opened.peer_count(k, i);
        let mut n = start;
        for p in 0..count {
            if self.slots < n {
                return n;
            }
            let found = edges::peer_up(&self.opened, k, i, p);
            n = self.chains_of(found, out, n);
        }
        n
    }

    // The chains that begin at the leaf.
    fn leaf_chains(&self, k: u8, count: u8, out: &mut [u8], start: usize) -> usize
        requires k_bound { k < segment_count self.now.opened.book.now }
        requires count_value { count ≡ entry_count (segment_at self.now.opened.book.now k) }
        requires room { Room self.now.slots start out.old }
        ensures { Pushes self.now.slots (start, out.old) (result, out.new) (flat_map (chains_from self.now.opened.book.now self.now.q.dst) (flat_map (ups_at (segment_at self.now.opened.book.now k)) (range 0 count))) }
    {
        let mut n = start;
        for i in 0..count {
            if self.slots < n {
                return n;
            }
            let found = edges::as_up(&self.opened, k, i);
            n = self.chains_of(found, out, n);
            n = self.peer_chains(k, i, out, n);
        }
        n
    }

    // ---- all segments

    // The chains that begin with an edge of the segment at k.
    fn chains_in(&self, k: u8, out: &mut [u8], n: usize) -> usize
        requires k_bound { k < segment_count self.now.opened.book.now }
        requires room { Room self.now.slots n out.old }
        ensures { Pushes self.now.slots (n, out.old) (result, out.new) (chains_in self.now.opened.book.now self.now.q.dst self.now.q.src (segment_at self.now.opened.book.now k)) }
    {
        let src = self.q.src;
        let count = self.opened.count_of(k);
        if count == 0 {
            return n;
        }
        if k < self.q.cores {
            let found = edges::core_leaving(&self.opened, k, Vertex::AS(src));
            return self.chains_of(found, out, n);
        }
        let leaf = self.opened.leaf_as(k);
        if leaf == src {
            return self.leaf_chains(k, count, out, n);
        }
        let found = edges::between(&self.opened, k, Vertex::AS(src), leaf);
        self.chains_of(found, out, n)
    }

    fn all_chains(&self, out: &mut [u8]) -> usize
        requires room { Room self.now.slots 0 out.old }
        ensures { Pushes self.now.slots (0, out.old) (result, out.new) (over_firsts (chains_in self.now.opened.book.now self.now.q.dst self.now.q.src) self.now.opened.book.now 0 self.now.q.count) }
    {
        let mut n: usize = 0;
        for k in 0..self.q.count {
            if self.slots < n {
                return n;
            }
            if self.plan.begins[usize::from(k)] {
                n = self.chains_in(k, out, n);
            }
        }
        n
    }
}

// ---- the plan

// Where chains may begin and arrive: of equal segments only in the first. A core segment has no last edge that the plan
// is asked for, and its entries are not looked at.
fn begins_and_arrives(opened: &Opened, q: Query, k: u8, first: bool) -> Ends
    requires k_bound { k < segment_count opened.now.book.now }
    requires cores_value { q.cores ≡ cores opened.now.book.now }
    requires first_value { first ≡ first_at opened.now.book.now k }
    ensures { (result.src ≡ begins opened.now.book.now q.src k) × (result.dst ≡ arrives opened.now.book.now q.dst k) }
{
    if !first {
        return Ends {
            src: false,
            dst: false,
        };
    }
    if k < q.cores {
        return Ends {
            src: true,
            dst: false,
        };
    }
    opened.ends_among_entries(k, q.src, q.dst)
}

// The next position where chains may arrive, from k on: k itself, or that from the position after it.
fn next_at(here: bool, k: u8, next: u8) -> u8
    ensures { result ≡ (if here then k else next) }
{
    if here { k } else { next }
}

fn plan_of(opened: &Opened, q: Query) -> Plan
    requires count_value { (q.count ≡ segment_count opened.now.book.now) × (q.count ≤ max_segments) }
    requires cores_value { q.cores ≡ cores opened.now.book.now }
    ensures { Planned opened.now.book.now q.src q.dst q.count 0 result.begins result.nexts }
{
    let count = q.count;
    let firsts = first_of_equals::firsts_of(opened, count);
    let mut begins = [false; Limits::SEGMENTS];
    let mut nexts = [0u8; Limits::SEGMENTS + 1];
    nexts[usize::from(count)] = count;
    let mut next = count;
    let mut k = count;
    while k > 0 {
        k -= 1;
        let ends = begins_and_arrives(opened, q, k, firsts[usize::from(k)]);
        next = next_at(ends.dst, k, next);
        begins[usize::from(k)] = ends.src;
        nexts[usize::from(k)] = next;
    }
    Plan { begins, nexts }
}

// Pushes all chains from `src` to `dst` of an accepted book into the slots.
pub(crate) fn search(
    opened: &Opened,
    src: IsdAsn,
    dst: IsdAsn,
    out: &mut [u8],
    slots: usize,
) -> usize
    requires room { Room slots 0 out.old }
    ensures { Pushes slots (0, out.old) (result, out.new) (found_chains opened.now.book.now dst src) }
{
    if src == dst {
        return 0;
    }
    let sizes = opened.sizes();
    let count = (sizes.cores + sizes.others) as u8;
    let q = Query {
        cores: sizes.cores as u8,
        count,
        src,
        dst,
    };
    let plan = plan_of(opened, q);
    let searching = Searching {
        opened: *opened,
        plan: &plan,
        q,
        slots,
    };
    searching.all_chains(out)
}
