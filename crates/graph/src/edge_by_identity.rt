// The stored edge that has an identity, looked up where the identity says: at its segment, its entry and its peer.
ghost use Rattle.std.specs.Prelude.{◌≡◌, true, false, ◌<◌};
ghost use Rattle.spec.specs.Book.{segment_at, segment_count};
ghost use Rattle.graph.specs.Lookup.{found_edges};
ghost use Rattle.graph.specs.Ready.{Filled};
ghost use Rattle.graph.specs.Identity.{identified};

use crate::edges;
use crate::opened::Opened;
use spec::{Edge, SolutionEdge, Vertex};

// ---- a core segment

// Its two edges are one where it has one entry, and then in construction direction.
fn core_edge(opened: &Opened, n: u8, id: SolutionEdge) -> Option<Edge>
    requires filled { Filled opened.now.book.now id.position n }
    requires position_value { (segment_at opened.now.book.now id.position).core ≡ true }
    ensures { found_edges result ≡ identified (segment_at opened.now.book.now id.position) id }
{
    if 0 < id.shortcut {
        return None;
    }
    if 0 < id.peer {
        return None;
    }
    let k = id.position;
    let first = opened.as_at(k, 0);
    let last = opened.as_at(k, n - 1);
    if id.construction {
        return Some(edges::edge_of_core(k, n, first, last, true));
    }
    if n == 1 {
        return None;
    }
    Some(edges::edge_of_core(k, n, last, first, false))
}

// ---- an AS edge

// It stands where the entry is not the leaf.
fn as_edge(opened: &Opened, n: u8, id: SolutionEdge) -> Option<Edge>
    requires filled { Filled opened.now.book.now id.position n }
    requires position_value { (segment_at opened.now.book.now id.position).core ≡ false }
    requires shortcut_lt_n { id.shortcut < n }
    requires peer_value { id.peer ≡ 0 }
    ensures { found_edges result ≡ identified (segment_at opened.now.book.now id.position) id }
{
    let k = id.position;
    let i = id.shortcut;
    if i == n - 1 {
        return None;
    }
    let here = opened.as_at(k, i);
    let leaf = opened.as_at(k, n - 1);
    if id.construction {
        return Some(Edge {
            src: Vertex::AS(here),
            dst: Vertex::AS(leaf),
            weight: n - 1 - i,
            shortcut: i,
            peer: 0,
            position: k,
            construction: true,
            core: false,
        });
    }
    Some(Edge {
        src: Vertex::AS(leaf),
        dst: Vertex::AS(here),
        weight: n - 1 - i,
        shortcut: i,
        peer: 0,
        position: k,
        construction: false,
        core: false,
    })
}

// ---- a peer's edge

// It stands where no later peer of the entry has its link.
fn peer_edge(opened: &Opened, n: u8, id: SolutionEdge) -> Option<Edge>
    requires filled { Filled opened.now.book.now id.position n }
    requires position_value { (segment_at opened.now.book.now id.position).core ≡ false }
    requires shortcut_lt_n { id.shortcut < n }
    requires peer_nonzero { 0 < id.peer }
    ensures { found_edges result ≡ identified (segment_at opened.now.book.now id.position) id }
{
    let k = id.position;
    let i = id.shortcut;
    let q = id.peer;
    if opened.peer_count(k, i) < q {
        return None;
    }
    if !id.construction {
        return edges::peer_up(opened, k, i, q - 1);
    }
    let link = opened.link_at(k, i, q - 1);
    if opened.find_peer(k, i, link) != q {
        return None;
    }
    let leaf = opened.as_at(k, n - 1);
    let local = link.local;
    let peer = link.peer;
    Some(Edge {
        src: Vertex::Peering {
            local_ia: peer,
            local_ifid: link.interface,
            peer_ia: local,
            peer_ifid: link.ingress,
        },
        dst: Vertex::AS(leaf),
        weight: n - 1 - i,
        shortcut: i,
        peer: q,
        position: k,
        construction: true,
        core: false,
    })
}

// ---- any

pub(crate) fn stored_edge(opened: &Opened, id: SolutionEdge) -> Option<Edge>
    requires position_bound { id.position < segment_count opened.now.book.now }
    ensures { found_edges result ≡ identified (segment_at opened.now.book.now id.position) id }
{
    let k = id.position;
    let n = opened.count_of(k);
    if n <= id.shortcut {
        return None;
    }
    if opened.is_core(k) {
        return core_edge(opened, n, id);
    }
    if id.peer == 0 {
        return as_edge(opened, n, id);
    }
    peer_edge(opened, n, id)
}
