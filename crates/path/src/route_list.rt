// The list of routes: of the solutions that have a path, one for each list of interfaces, the longest-lived. The records of the
// routes held stand at the front of the output, never past the record that is read. A route is looked for by its mark: the marks
// are in buckets, each of which leads to its last mark and each mark to the one before it.
ghost use Rattle.std.specs.Prelude.{◌≡◌, ◌+◌, ◌-◌, ◌*◌, ◌%◌, ◌≤◌, ◌<◌, length, replicate};
ghost use Rattle.sha256.specs.Message.{sha256};
ghost use Rattle.spec.specs.Limits.{solution_size, max_slots};
ghost use Rattle.spec.specs.Routes.{routing};
ghost use Rattle.output.specs.Write.{written};
ghost use Rattle.path.specs.Slots.{record_at, shown_in, hold_in, step, OfBook, AllOfBook, Shows, Compared, Sought, Told, Chained, Holds, Kept, Routed};

use crate::mark::Pair;
use crate::shown::Interfaces;
use crate::{ASES, IDS, loop_test, mark, shown, within};
use book::PLACES;
use graph::Opened;
use spec::{IsdAsn, Limits, Refusal, Solution};

// How many records the tables of a short and a medium list have room for, and how many buckets each has: a short list does not
// pay for long tables of zeros.
const SHORT: usize = 32;

const SHORT_BUCKETS: usize = 16;

const MEDIUM: usize = 512;

const MEDIUM_BUCKETS: usize = 256;

const LONG_BUCKETS: usize = 512;

// The slot where a route is held, and the expiry of the record there.
#[derive(Clone, Copy)]
pub(crate) struct Held {
    pub slot: usize,
    pub expiry: u32,
}

// Whether slot k holds the route whose interfaces are given.
fn compare(opened: &Opened, out: &[u8], k: usize, route: &Interfaces) -> Option<Held>
    requires of_book { OfBook opened.now.book.now (record_at out.now k) }
    requires k_in_bounds { solution_size * (k + 1) ≤ length out.now }
    ensures { Compared opened.now.book.now (shown_in route.now.ases.now route.now.ids.now route.now.count) (record_at out.now k) k result }
{
    let given = shown::record_in(out, k);
    let mut others = [0u8; ASES];
    let mut other_ids = [0u8; IDS];
    let held = shown::walk(opened, &given, &mut others, &mut other_ids);
    if held.count != route.count {
        return None;
    }
    let others = Interfaces {
        ases: &others,
        ids: &other_ids,
        count: held.count,
    };
    if !route.same(&others) {
        return None;
    }
    Some(Held {
        slot: k,
        expiry: held.expiry,
    })
}

// Puts a record into slot k.
fn put_record(given: &[u8], out: &mut [u8], k: usize)
    requires { (length given.now ≡ solution_size) × (solution_size * (k + 1) ≤ length out.old) }
    ensures { out.new ≡ written out.old (solution_size * k) given.now }
{
    within::copy(given, 0, out, Solution::SIZE * k, Solution::SIZE);
}

// The marks of the routes held, with room for N, in B buckets: each bucket leads to its last mark, and each mark to the one before it, by one more than its
// place; 0 leads nowhere (an Option would take twice the memory, which is fixed).
#[derive(Drop)]
struct Buckets<const N: usize, const B: usize> {
    marks: [u16; N],
    next: [u16; N],
    heads: [u16; B],
    kept: usize,
    ghost sized: { (length marks ≡ N) × (length next ≡ N) × (length heads ≡ B) × (0 < B) × (N ≤ max_slots) × (B ≤ max_slots) },
}

impl<const N: usize, const B: usize> Buckets<N, B> {
    // ---- looking for a route

    fn bucket(&self, mark: u16) -> usize
        ensures { (result ≡ mark % length self.now.heads) × (result < length self.now.heads) }
    {
        usize::from(mark) % B
    }

    // Whether slot k holds the route. Its mark stands after those of the routes held: only where the marks are the same are the interfaces compared.
    fn look(&self, opened: &Opened, out: &[u8], k: usize, route: &Interfaces) -> Option<Held>
        requires in_bounds { (solution_size * self.now.kept ≤ length out.now) × (self.now.kept < N) × (k < self.now.kept) }
        requires all_of_book { AllOfBook opened.now.book.now out.now self.now.kept }
        requires told { Told opened.now.book.now (shown_in route.now.ases.now route.now.ids.now route.now.count) out.now self.now.marks self.now.kept }
        ensures { Compared opened.now.book.now (shown_in route.now.ases.now route.now.ids.now route.now.count) (record_at out.now k) k result }
    {
        if self.marks[k] != self.marks[self.kept] {
            return None;
        }
        compare(opened, out, k, route)
    }

    // Looks for the route in its bucket.
    fn seek(&self, opened: &Opened, out: &[u8], route: &Interfaces) -> Option<Held>
        requires in_bounds { (solution_size * self.now.kept ≤ length out.now) × (self.now.kept < N) }
        requires all_of_book { AllOfBook opened.now.book.now out.now self.now.kept }
        requires told { Told opened.now.book.now (shown_in route.now.ases.now route.now.ids.now route.now.count) out.now self.now.marks self.now.kept }
        requires chained { Chained self.now.marks self.now.next self.now.heads self.now.kept }
        ensures { Sought opened.now.book.now (shown_in route.now.ases.now route.now.ids.now route.now.count) out.now self.now.kept result }
    {
        let mut at = usize::from(self.heads[self.bucket(self.marks[self.kept])]);
        while at > 0 {
            if let Some(held) = self.look(opened, out, at - 1, route) {
                return Some(held);
            }
            at = usize::from(self.next[at - 1]);
        }
        None
    }

    // ---- holding it

    // One more record that has a path: it takes over its route's place, or the one after the last, or none.
    fn hold(
        &mut self,
        opened: &Opened,
        keys: Pair,
        given: &[u8],
        out: &mut [u8],
        route: &Interfaces,
        expiry: u32,
    )
        requires in_bounds { (length given.now ≡ solution_size) × (solution_size * (self.old.kept + 1) ≤ length out.old) × (self.old.kept < N) }
        requires of_book { OfBook opened.now.book.now given.now }
        requires shows { Shows opened.now.book.now given.now route.now.ases.now route.now.ids.now (record { count = route.now.count; expiry = expiry }) }
        requires holds { Holds opened.now.book.now keys out.old self.old.marks self.old.next self.old.heads self.old.kept }
        ensures { Kept opened.now.book.now keys (hold_in opened.now.book.now given.now) out.old self.old.kept out.new self.new.marks self.new.next self.new.heads self.new.kept }
    {
        let kept = self.kept;
        self.marks[kept] = mark::both_marks(keys, route);
        let Some(held) = self.seek(opened, out, route) else {
            put_record(given, out, kept);
            let h = self.bucket(self.marks[kept]);
            self.next[kept] = self.heads[h];
            self.heads[h] = (kept + 1) as u16;
            self.kept = kept + 1;
            return;
        };
        if held.expiry < expiry {
            put_record(given, out, held.slot);
        }
    }

    // One more record, that of slot k.
    fn keep(&mut self, opened: &Opened, keys: Pair, out: &mut [u8], k: usize)
        requires in_bounds { (solution_size * (k + 1) ≤ length out.old) × (self.old.kept ≤ k) × (k < N) }
        requires of_book { OfBook opened.now.book.now (record_at out.old k) }
        requires holds { Holds opened.now.book.now keys out.old self.old.marks self.old.next self.old.heads self.old.kept }
        ensures { Kept opened.now.book.now keys (step opened.now.book.now (record_at out.old k)) out.old self.old.kept out.new self.new.marks self.new.next self.new.heads self.new.kept }
    {
        let given = shown::record_in(out, k);
        let mut ases = [0u8; ASES];
        let mut ids = [0u8; IDS];
        let shown = shown::walk(opened, &given, &mut ases, &mut ids);
        if loop_test::is_loop(&ases, 0, shown.count) {
            return;
        }
        if shown.count == 0 {
            return;
        }
        let route = Interfaces {
            ases: &ases,
            ids: &ids,
            count: shown.count,
        };
        self.hold(opened, keys, &given, out, &route, shown.expiry);
    }
}

// The routes of the first n records of `out`, in its front, by marks in B buckets. Answers how many.
fn keep_all<const N: usize, const B: usize>(opened: &Opened, out: &mut [u8], n: usize) -> usize
    requires n_in_bounds { (solution_size * n ≤ length out.old) × (n ≤ N) × (N ≤ max_slots) × (0 < B) × (B ≤ max_slots) }
    requires all_of_book { AllOfBook opened.now.book.now out.old n }
    ensures { Routed opened.now.book.now out.old n out.new result }
{
    let keys = mark::pair_for(opened.book, n);
    let mut buckets = Buckets::<N, B> {
        marks: [0; N],
        next: [0; N],
        heads: [0; B],
        kept: 0,
    };
    for k in 0..n {
        buckets.keep(opened, keys, out, k);
    }
    buckets.kept
}

// Apart from `routes`, whose stack has the listing's on it: the tables would lie beside the buffer of its sort.
#[inline(never)]
fn keep_by_length(opened: &Opened, out: &mut [u8], n: usize) -> usize
    requires n_in_bounds { (solution_size * n ≤ length out.old) × (n ≤ max_slots) }
    requires all_of_book { AllOfBook opened.now.book.now out.old n }
    ensures { Routed opened.now.book.now out.old n out.new result }
{
    if n <= SHORT {
        return keep_all::<SHORT, SHORT_BUCKETS>(opened, out, n);
    }
    if n <= MEDIUM {
        return keep_all::<MEDIUM, MEDIUM_BUCKETS>(opened, out, n);
    }
    keep_all::<{ Limits::SLOTS }, LONG_BUCKETS>(opened, out, n)
}

// Zeros from one index up to another. After the records of solutions listing has left zeros.
#[tactic(auto, using(crate::proofs::Buffers::filled))]
fn clear(out: &mut [u8], from: usize, end: usize)
    requires { (from ≤ end) × (end ≤ length out.old) }
    ensures { out.new ≡ written out.old from (replicate (end - from) 0) }
{
    out[from..end].fill(0);
}

// Lists the routes from `src` to `dst` into `out`: their count and their records in order of first appearance, or the refusal that
// listing gives, and zeros.
pub fn routes(src: IsdAsn, dst: IsdAsn, book: &[u8], out: &mut [u8]) -> Result<usize, Refusal>
    ensures { (result, out.new) ≡ routing sha256 book.now src dst (length out.old) }
{
    let n = graph::list(src, dst, book, out)?;
    let mut table = [0u16; PLACES];
    book::open(book, &mut table)?;
    let opened = Opened {
        book,
        table: &table,
    };
    let kept = keep_by_length(&opened, out, n);
    clear(out, Solution::SIZE * kept, Solution::SIZE * n);
    Ok(kept)
}
