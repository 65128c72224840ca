// The edges of a record in an opened book, and where their entries stand.
ghost use Rattle.std.specs.Prelude.{◌≡◌, ◌+◌, ◌-◌, ◌^◌, ◌≤◌, ◌<◌, length};
ghost use Rattle.spec.specs.Limits.{entry_size, max_entries};
ghost use Rattle.spec.specs.Octets.{Bytes};
ghost use Rattle.spec.specs.Book.{mac_at};
ghost use Rattle.spec.specs.Assembly.{is_peer_hop, segment_of};
ghost use Rattle.path.specs.Edges.{edge_by, InBook, RecordInBook};
ghost use Rattle.path.specs.Places.{link_offset, is_inner_shortcut, StandsAt, entry_from};

use crate::within;
use graph::Opened;
use spec::{AsEntry, Head, HopField, Limits, PeerEntry, Sizes, SolutionEdge};

// A record with its first `count` edges.
#[derive(Clone, Copy)]
pub(crate) struct PlacedRecord<'a, 'b> {
    pub opened: Opened<'a>,
    pub given: &'b [u8],
    pub count: usize,
    pub ghost in_book: { RecordInBook opened.book.now given.now count },
    pub ghost bytes: { Bytes opened.book.now },
}

// One of its edges.
#[derive(Clone, Copy)]
pub(crate) struct PlacedEdge<'a> {
    pub opened: Opened<'a>,
    pub edge: SolutionEdge,
    pub ghost in_book: { InBook opened.book.now (edge_by edge) },
}

// Entry m of the edge's segment, which stands at an offset.
#[derive(Clone, Copy)]
pub(crate) struct PlacedEntry<'a> {
    pub book: &'a [u8],
    pub edge: SolutionEdge,
    pub m: usize,
    pub at: usize,
    pub ghost stands: { StandsAt book.now (edge_by edge) m at },
    pub ghost at_bound: { at < 2 ^ 16 },
}

// Where the first head's timestamp, its id and the low byte of its entry count stand.
const TIMESTAMP: usize = Sizes::SIZE + Head::TIMESTAMP;

const ID: usize = Sizes::SIZE + Head::ID;

const COUNT: usize = Sizes::SIZE + Head::ENTRIES + 1;

impl<'a> PlacedEdge<'a> {
    // How many entries the edge's segment has: in an accepted book the count fits its low byte.
    pub(crate) fn entry_count(&self) -> usize
        ensures { (result ≡ length (segment_of self.now.opened.book.now (edge_by self.now.edge)).entries) × (result ≤ max_entries) × (self.now.edge.shortcut < result) }
    {
        usize::from(self.opened.book[COUNT + Head::SIZE * usize::from(self.edge.position)])
    }

    // When the edge's segment was made.
    pub(crate) fn timestamp(&self) -> u32
        ensures { result ≡ (segment_of self.now.opened.book.now (edge_by self.now.edge)).timestamp }
    {
        within::read32(
            self.opened.book,
            TIMESTAMP + Head::SIZE * usize::from(self.edge.position),
        )
    }

    // The segment's id, before any MAC is folded in.
    pub(crate) fn id(&self) -> u16
        ensures { result ≡ (segment_of self.now.opened.book.now (edge_by self.now.edge)).id }
    {
        within::read16(
            self.opened.book,
            ID + Head::SIZE * usize::from(self.edge.position),
        )
    }

    // Where entry m of the edge's segment stands.
    pub(crate) fn offset(&self, m: usize) -> usize
        requires { m < length (segment_of self.now.opened.book.now (edge_by self.now.edge)).entries }
        ensures { StandsAt self.now.opened.book.now (edge_by self.now.edge) m result × (result < 2 ^ 16) }
    {
        let row = Limits::ENTRIES * usize::from(self.edge.position);
        usize::from(self.opened.table[row + m])
    }
}

// The entry of hop j, of n entries.
pub(crate) fn entry_of(e: SolutionEdge, n: usize, j: usize) -> usize
    requires n_le_max_entries { n ≤ max_entries }
    requires j_bound { e.shortcut + j < n }
    ensures { (result ≡ entry_from (edge_by e) n j) × (result < n) }
{
    if e.construction {
        return usize::from(e.shortcut) + j;
    }
    n - 1 - j
}

// Where the edge's peer stands, after its entry.
pub(crate) fn link_offset(e: SolutionEdge, at: usize) -> usize
    requires at_bound { at < 2 ^ 32 }
    requires peer_nonzero { 0 < e.peer }
    ensures { (result ≡ link_offset (edge_by e) at) × (result < 2 ^ 33) }
{
    at + AsEntry::SIZE + PeerEntry::SIZE * usize::from(e.peer - 1)
}

// The hop at entry m is the peer's.
pub(crate) fn is_peer_hop(e: SolutionEdge, m: usize) -> bool
    ensures { result ≡ is_peer_hop (edge_by e) m }
{
    m == usize::from(e.shortcut) && 0 < e.peer
}

// Entry m is the shortcut, above the segment's first entry: the path leaves the segment there, or joins it.
pub(crate) fn is_inner_shortcut(e: SolutionEdge, m: usize) -> bool
    ensures { result ≡ is_inner_shortcut (edge_by e) m }
{
    m == usize::from(e.shortcut) && 0 < e.shortcut
}

// An entry's MAC.
pub(crate) fn mac(book: &[u8], at: usize) -> [u8; HopField::MAC]
    requires { at + entry_size ≤ length book.now }
    ensures { result ≡ mac_at book.now (at + 19) }
{
    let m = at + AsEntry::MAC;
    [
        book[m],
        book[m + 1],
        book[m + 2],
        book[m + 3],
        book[m + 4],
        book[m + 5],
    ]
}
