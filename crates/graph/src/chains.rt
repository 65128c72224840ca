// The chain that a solution record is of: the record names its edges, and each is looked up in the book.
ghost use Rattle.std.specs.Prelude.{◌≡◌, ◌+◌, ◌-◌, ◌≤◌, length};
ghost use Rattle.spec.specs.Limits.{max_edges, solution_size};
ghost use Rattle.spec.specs.Basics.{same_list};
ghost use Rattle.records.specs.Octets.{record_octets};
ghost use Rattle.book.specs.Offsets.{open_table};
ghost use Rattle.graph.specs.Lookup.{found_edges};
ghost use Rattle.graph.specs.Identity.{identified_in};
ghost use Rattle.graph.specs.Recorded.{chain_in, recorded, recorded_chains};
ghost use Rattle.graph.specs.RecordWalk.{Bounded, begun, goes_on, one_further, kinds_allowed, own_edge, own_solution, has_arrived, completed};

use crate::opened::{Opened, WORD, be64_within};
use crate::{edge_by_identity, first_of_equals, slots};
use book::PLACES;
use spec::{Edge, IsdAsn, Refusal, Solution, SolutionEdge, Vertex};

// ---- what a record says

// Two records are the same: the two numbers of eight bytes of each.
fn same_words(a: &[u8], b: &[u8]) -> bool
    requires a_len { length a.now ≡ solution_size }
    requires b_len { length b.now ≡ solution_size }
    ensures { result ≡ same_list a.now b.now }
{
    if be64_within(a, 0) != be64_within(b, 0) {
        return false;
    }
    be64_within(a, WORD) == be64_within(b, WORD)
}

// The record is that of a solution.
fn same_record(given: &[u8], s: Solution) -> bool
    requires { length given.now ≡ solution_size }
    ensures { result ≡ same_list given.now (record_octets s) }
{
    let own = records::solution_octets(s);
    same_words(given, &own)
}

// The stored edge with an identity.
fn edge_of(opened: &Opened, id: SolutionEdge) -> Option<Edge>
    ensures { found_edges result ≡ identified_in opened.now.book.now id }
{
    let sizes = opened.sizes();
    if sizes.cores + sizes.others <= u16::from(id.position) {
        return None;
    }
    if opened.count_of(id.position) == 0 {
        return None;
    }
    if !first_of_equals::is_first(opened, id.position) {
        return None;
    }
    edge_by_identity::stored_edge(opened, id)
}

// ---- edges in a row

// What a row of edges has reached: the vertex, the sum of the weights, and the kinds, a binary digit for each
// edge, 1 for core.
#[derive(Clone, Copy)]
struct Reached {
    at: Vertex,
    cost: u16,
    kinds: u8,
}

// An edge leaves the vertex that is reached, and that is not the destination.
fn goes_on(dst: IsdAsn, reached: Reached, e: Edge) -> bool
    ensures { result ≡ goes_on dst reached e }
{
    if reached.at == Vertex::AS(dst) {
        return false;
    }
    e.src == reached.at
}

// What is reached by one edge more.
fn one_further(reached: Reached, e: Edge) -> Reached
    requires { Bounded (max_edges - 1) reached }
    ensures { (result ≡ one_further reached e) × (result.cost ≤ reached.cost + 255) }
{
    Reached {
        at: e.dst,
        cost: reached.cost + slots::weight(e),
        kinds: reached.kinds * 2 + records::bit(e.core),
    }
}

// ---- at the end of the row

// So many edges, three at most, may be of these kinds.
fn kinds_allowed(count: u8, kinds: u8) -> bool
    ensures { result ≡ kinds_allowed count kinds }
{
    match count {
        1 => true,
        2 => kinds != 3,
        _ => kinds == 2,
    }
}

// Edge k of a record that names `count`.
fn own_edge(given: &[u8], count: u8, k: u8) -> SolutionEdge
    ensures { result ≡ own_edge given.now count k }
{
    if k < count {
        return records::edge(given, k);
    }
    slots::no_edge()
}

// What the record of the edges that are named says, if they have that cost.
fn own_solution(given: &[u8], count: u8, cost: u16) -> Solution
    requires { count ≤ max_edges }
    ensures { result ≡ own_solution given.now count cost }
{
    Solution::new(
        cost,
        count,
        [
            own_edge(given, count, 0),
            own_edge(given, count, 1),
            own_edge(given, count, 2),
        ],
    )
}

// The destination is reached by edges of allowed kinds, and the record is theirs.
fn arrives(dst: IsdAsn, given: &[u8], count: u8, reached: Reached) -> bool
    requires given_len { length given.now ≡ solution_size }
    requires count_le_max_edges { count ≤ max_edges }
    ensures { result ≡ has_arrived dst given.now count reached }
{
    if reached.at != Vertex::AS(dst) {
        return false;
    }
    if !kinds_allowed(count, reached.kinds) {
        return false;
    }
    same_record(given, own_solution(given, count, reached.cost))
}

// ---- all

// The first `count` edges that the record names are a chain, and the record is its.
fn is_chain(src: IsdAsn, dst: IsdAsn, opened: &Opened, given: &[u8], count: u8) -> bool
    requires given_len { length given.now ≡ solution_size }
    requires count_le_max_edges { count ≤ max_edges }
    ensures { result ≡ completed opened.now.book.now dst given.now count (begun src) 0 }
{
    let mut reached = Reached {
        at: Vertex::AS(src),
        cost: 0,
        kinds: 0,
    };
    for x in 0..count {
        let id = records::edge(given, x);
        let Some(e) = edge_of(opened, id) else {
            return false;
        };
        if !goes_on(dst, reached, e) {
            return false;
        }
        reached = one_further(reached, e);
    }
    arrives(dst, given, count, reached)
}

// The most edges that a record can name.
const MOST: u8 = Solution::EDGES as u8;

// The chain of a record in an accepted book: how many edges it has, which are those that the record names. A stranger's record is of none. Its length is tested first: the compiler then knows it at every read.
fn chain_in(src: IsdAsn, dst: IsdAsn, opened: &Opened, given: &[u8]) -> Option<u8>
    ensures { result ≡ chain_in (recorded_chains opened.now.book.now src dst given.now) }
{
    if given.len() != Solution::SIZE {
        return None;
    }
    let count = records::edge_count(given);
    if MOST < count {
        return None;
    }
    if is_chain(src, dst, opened, given, count) {
        return Some(count);
    }
    None
}

// The chain that the record `given` is of. The table of entry offsets is left for the caller, who needs it
// to assemble the chain's path.
pub fn chain_of(
    src: IsdAsn,
    dst: IsdAsn,
    book: &[u8],
    given: &[u8],
    table: &mut [u16; PLACES],
) -> Result<Option<u8>, Refusal>
    ensures { (result ≡ recorded book.now src dst given.now) × (table.new ≡ open_table book.now) }
{
    book::open(book, table)?;
    let opened = Opened { book, table };
    Ok(chain_in(src, dst, &opened, given))
}
