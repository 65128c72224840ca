// The stored edges of one segment, worked out of the book where it lies: what it stores between two
// vertices, and what it stores that leaves one.
ghost use Rattle.std.specs.Prelude.{◌≡◌, true, false, ◌&&◌, ◌-◌, ◌<◌};
ghost use Rattle.spec.specs.declared.IsdAsn.{IsdAsn};
ghost use Rattle.spec.specs.declared.Vertex.{Vertex};
ghost use Rattle.spec.specs.declared.Vertex.TheVariants.{AS};
ghost use Rattle.spec.specs.Book.{same_as, segment_at, segment_count};
ghost use Rattle.spec.specs.Edges.{leaf_as, in_construction};
ghost use Rattle.graph.specs.Lookup.{between, leaving_of, found_edges};
ghost use Rattle.graph.specs.Leaving.{entry_count, peer_count_of, as_up, peer_up, joins, entry_with, as_edge_at, down_peer_edge};
ghost use Rattle.graph.specs.EdgeFound.{whole_edge, whole_edges};
ghost use Rattle.graph.specs.Ready.{Filled};

use crate::opened::Opened;
use crate::vertices::Link;
use spec::{Edge, IsdAsn, Vertex};

// ---- between two vertices

// What of an edge to an AS of a non-core segment is not known before it is found.
#[derive(Clone, Copy)]
pub(crate) struct EdgeFound {
    pub construction: bool,
    pub shortcut: u8,
    pub peer: u8,
    pub weight: u8,
}

// The AS edge at the entry below the leaf that has an AS.
fn as_edge_found(opened: &Opened, k: u8, n: u8, a: IsdAsn, construction: bool) -> Option<EdgeFound>
    requires filled { Filled opened.now.book.now k n }
    requires k_value { (segment_at opened.now.book.now k).core ≡ false }
    ensures { (v : Vertex) (w : IsdAsn) → construction ≡ in_construction (segment_at opened.now.book.now k) (AS w) → whole_edges k v w result ≡ as_edge_at (segment_at opened.now.book.now k) v (AS w) (entry_with (segment_at opened.now.book.now k) a (n - 1)) }
{
    let i = opened.find_as(k, a, n - 1)?;
    Some(EdgeFound {
        construction,
        shortcut: i,
        peer: 0,
        weight: n - 1 - i,
    })
}

// The stored edge of a non-core segment from an AS to an AS, of which one is the leaf's. What is answered is small.
pub(crate) fn edge_between_ases(opened: &Opened, k: u8, a: IsdAsn, w: IsdAsn) -> Option<EdgeFound>
    requires k_bound { k < segment_count opened.now.book.now }
    requires k_value { (segment_at opened.now.book.now k).core ≡ false }
    ensures { whole_edges k (AS a) w result ≡ between (segment_at opened.now.book.now k) (AS a) (AS w) }
{
    let n = opened.count_of(k);
    if n == 0 {
        return None;
    }
    let leaf = opened.as_at(k, n - 1);
    if leaf == w {
        return as_edge_found(opened, k, n, a, true);
    }
    if leaf == a {
        return as_edge_found(opened, k, n, w, false);
    }
    None
}

// The edge to the leaf from the other side of a link, at the entry of its AS.
fn link_edge_found(opened: &Opened, k: u8, n: u8, link: Link) -> Option<EdgeFound>
    requires filled { Filled opened.now.book.now k n }
    requires k_value { (segment_at opened.now.book.now k).core ≡ false }
    ensures { (v : Vertex) (w : IsdAsn) → true ≡ in_construction (segment_at opened.now.book.now k) (AS w) → whole_edges k v w result ≡ down_peer_edge (segment_at opened.now.book.now k) v (AS w) link }
{
    let i = opened.find_as(k, link.local, n)?;
    let q = opened.find_peer(k, i, link);
    if q == 0 {
        return None;
    }
    Some(EdgeFound {
        construction: true,
        shortcut: i,
        peer: q,
        weight: n - 1 - i,
    })
}

// From a vertex to an AS: one of the two is the leaf.
fn edge_at_leaf(
    opened: &Opened,
    k: u8,
    n: u8,
    leaf: IsdAsn,
    v: Vertex,
    w: IsdAsn,
) -> Option<EdgeFound>
    requires filled { Filled opened.now.book.now k n }
    requires k_value { (segment_at opened.now.book.now k).core ≡ false }
    requires leaf_value { leaf ≡ leaf_as (segment_at opened.now.book.now k) }
    ensures { whole_edges k v w result ≡ between (segment_at opened.now.book.now k) v (AS w) }
{
    match v {
        Vertex::AS(a) => edge_between_ases(opened, k, a, w),
        Vertex::Peering {
            local_ia: l,
            local_ifid: i,
            peer_ia: p,
            peer_ifid: j,
        } => {
            if leaf != w {
                return None;
            }
            let link = Link {
                local: p,
                ingress: j,
                peer: l,
                interface: i,
            };
            link_edge_found(opened, k, n, link)
        }
    }
}

// The stored edge of a non-core segment from a vertex to an AS. Most segments are passed over after a look at the
// leaf's AS, and what is answered is small.
pub(crate) fn edge_to_as(opened: &Opened, k: u8, v: Vertex, w: IsdAsn) -> Option<EdgeFound>
    requires k_bound { k < segment_count opened.now.book.now }
    requires k_value { (segment_at opened.now.book.now k).core ≡ false }
    ensures { whole_edges k v w result ≡ between (segment_at opened.now.book.now k) v (AS w) }
{
    let n = opened.count_of(k);
    if n == 0 {
        return None;
    }
    edge_at_leaf(opened, k, n, opened.as_at(k, n - 1), v, w)
}

// The whole edge.
pub(crate) fn whole_edge(k: u8, v: Vertex, w: IsdAsn, j: EdgeFound) -> Edge
    ensures { result ≡ whole_edge k v w j }
{
    Edge {
        src: v,
        dst: Vertex::AS(w),
        weight: j.weight,
        shortcut: j.shortcut,
        peer: j.peer,
        position: k,
        construction: j.construction,
        core: false,
    }
}

fn joins(first: IsdAsn, last: IsdAsn, a: IsdAsn, c: IsdAsn) -> bool
    ensures { result ≡ joins first last a c }
{
    if first == a && last == c {
        return true;
    }
    last == a && first == c
}

// The edge of the core segment at k, of n entries, from its one end to the other.
pub(crate) fn edge_of_core(k: u8, n: u8, from: IsdAsn, to: IsdAsn, construction: bool) -> Edge
    requires { 0 < n }
    ensures { result ≡ record { src = AS from; dst = AS to; weight = n - 1; shortcut = 0; peer = 0; position = k; construction = construction; core = true } }
{
    Edge {
        src: Vertex::AS(from),
        dst: Vertex::AS(to),
        weight: n - 1,
        shortcut: 0,
        peer: 0,
        position: k,
        construction,
        core: true,
    }
}

fn core_between(opened: &Opened, k: u8, n: u8, last: IsdAsn, v: Vertex, w: IsdAsn) -> Option<Edge>
    requires filled { Filled opened.now.book.now k n }
    requires k_value { (segment_at opened.now.book.now k).core ≡ true }
    requires last_value { last ≡ leaf_as (segment_at opened.now.book.now k) }
    ensures { found_edges result ≡ between (segment_at opened.now.book.now k) v (AS w) }
{
    let Vertex::AS(a) = v else {
        return None;
    };
    if joins(opened.as_at(k, 0), last, a, w) {
        return Some(edge_of_core(k, n, a, w, w == last));
    }
    None
}

// The stored edge from a vertex to an AS.
pub(crate) fn between(opened: &Opened, k: u8, v: Vertex, w: IsdAsn) -> Option<Edge>
    requires k_bound { k < segment_count opened.now.book.now }
    ensures { found_edges result ≡ between (segment_at opened.now.book.now k) v (AS w) }
{
    let n = opened.count_of(k);
    if n == 0 {
        return None;
    }
    let leaf = opened.as_at(k, n - 1);
    if opened.is_core(k) {
        return core_between(opened, k, n, leaf, v, w);
    }
    let j = edge_at_leaf(opened, k, n, leaf, v, w)?;
    Some(whole_edge(k, v, w, j))
}

// ---- from a vertex

// The stored edge of a core segment that leaves a vertex.
pub(crate) fn core_leaving(opened: &Opened, k: u8, v: Vertex) -> Option<Edge>
    requires k_bound { k < segment_count opened.now.book.now }
    requires k_value { (segment_at opened.now.book.now k).core ≡ true }
    ensures { found_edges result ≡ leaving_of v (segment_at opened.now.book.now k) }
{
    let n = opened.count_of(k);
    if n == 0 {
        return None;
    }
    let Vertex::AS(a) = v else {
        return None;
    };
    let first = opened.as_at(k, 0);
    let last = opened.as_at(k, n - 1);
    if first == a {
        return Some(edge_of_core(k, n, first, last, true));
    }
    if last == a {
        return Some(edge_of_core(k, n, last, first, false));
    }
    None
}

// The edge from the leaf to the AS of entry i, where that is not the leaf.
pub(crate) fn as_up(opened: &Opened, k: u8, i: u8) -> Option<Edge>
    requires k_bound { k < segment_count opened.now.book.now }
    requires i_bound { i < entry_count (segment_at opened.now.book.now k) }
    ensures { found_edges result ≡ as_up (segment_at opened.now.book.now k) i }
{
    let n = opened.count_of(k);
    if i == n - 1 {
        return None;
    }
    let here = opened.as_at(k, i);
    let leaf = opened.as_at(k, n - 1);
    Some(Edge {
        src: Vertex::AS(leaf),
        dst: Vertex::AS(here),
        weight: n - 1 - i,
        shortcut: i,
        peer: 0,
        position: k,
        construction: false,
        core: opened.is_core(k),
    })
}

// The edge from the leaf to the peering end of peer p of entry i, where no later peer of the entry has it.
pub(crate) fn peer_up(opened: &Opened, k: u8, i: u8, p: u8) -> Option<Edge>
    requires k_bound { k < segment_count opened.now.book.now }
    requires i_bound { i < entry_count (segment_at opened.now.book.now k) }
    requires p_bound { p < peer_count_of (segment_at opened.now.book.now k) i }
    ensures { found_edges result ≡ peer_up (segment_at opened.now.book.now k) i p }
{
    let link = opened.link_at(k, i, p);
    let q = opened.find_peer(k, i, link);
    if q - 1 != p {
        return None;
    }
    let n = opened.count_of(k);
    let leaf = opened.as_at(k, n - 1);
    let local = link.local;
    let peer = link.peer;
    Some(Edge {
        src: Vertex::AS(leaf),
        dst: Vertex::Peering {
            local_ia: local,
            local_ifid: link.ingress,
            peer_ia: peer,
            peer_ifid: link.interface,
        },
        weight: n - i,
        shortcut: i,
        peer: q,
        position: k,
        construction: false,
        core: opened.is_core(k),
    })
}
