// What an opened book holds: numbers, entries and peers, read where they lie, by the table of entry offsets.
ghost use Rattle.std.specs.Prelude.{◌≡◌, ◌||◌, ◌+◌, ◌*◌, ◌^◌, ◌≤◌, ◌<◌, length, get_or};
ghost use Rattle.spec.specs.Limits.{max_segments, max_entries, entry_size, peer_size};
ghost use Rattle.spec.specs.Octets.{be16, be32, be64};
ghost use Rattle.spec.specs.Book.{same_as, segment_at, segment_count, sizes_at, isd_asn_at, peer_count, peer_entry_at, peer_offset};
ghost use Rattle.spec.specs.Edges.{as_of, leaf_as};
ghost use Rattle.graph.specs.Leaving.{entry_count, peer_count_of, link_of, FoundEntry, has_as, peer_linked};
ghost use Rattle.graph.specs.Link.{end_of, same_peer};
ghost use Rattle.graph.specs.Ready.{Ready};

use crate::vertices::Link;
use book::PLACES;
use spec::{AsEntry, Head, IsdAsn, Limits, PeerEntry, Sizes};

// ---- numbers that lie within the book

fn be16_within(book: &[u8], at: usize) -> u16
    requires { at + 2 ≤ length book.now }
    ensures { result ≡ be16 book.now at }
{
    u16::from_be_bytes([book[at], book[at + 1]])
}

fn be32_within(book: &[u8], at: usize) -> u32
    requires { at + 4 ≤ length book.now }
    ensures { result ≡ be32 book.now at }
{
    u32::from_be_bytes([book[at], book[at + 1], book[at + 2], book[at + 3]])
}

// The bytes of the widest number that is read at once.
pub(crate) const WORD: usize = 8;

pub(crate) fn be64_within(book: &[u8], at: usize) -> u64
    requires { at + 8 ≤ length book.now }
    ensures { result ≡ be64 book.now at }
{
    u64::from_be_bytes([
        book[at],
        book[at + 1],
        book[at + 2],
        book[at + 3],
        book[at + 4],
        book[at + 5],
        book[at + 6],
        book[at + 7],
    ])
}

// The AS of the entry or peer at an offset.
fn as_within(book: &[u8], at: usize) -> IsdAsn
    requires { at + 8 ≤ length book.now }
    ensures { result ≡ isd_asn_at book.now at }
{
    IsdAsn(be64_within(book, at))
}

// ---- peers, by the offset of their entry and by their own

fn peers_at(book: &[u8], at: usize) -> u8
    requires { at + entry_size ≤ length book.now }
    ensures { result ≡ peer_count book.now at }
{
    book[at + AsEntry::PEER_COUNT]
}

// Where peer p of the entry at an offset starts.
fn peer_offset(at: usize, p: u8) -> usize
    requires { at < 2 ^ 16 }
    ensures { result ≡ peer_offset at p }
{
    at + AsEntry::SIZE + PeerEntry::SIZE * usize::from(p)
}

// The peer at an offset is that of a link.
fn same_peer(book: &[u8], at: usize, link: Link) -> bool
    requires { at + peer_size ≤ length book.now }
    ensures { result ≡ same_peer (peer_entry_at book.now at) link }
{
    if be16_within(book, at + PeerEntry::INGRESS) != link.ingress {
        return false;
    }
    if be16_within(book, at + PeerEntry::INTERFACE) != link.interface {
        return false;
    }
    as_within(book, at) == link.peer
}

// ---- an opened book

// Which of two ASes the entries of a segment have.
#[derive(Clone, Copy)]
pub(crate) struct Ends {
    pub src: bool,
    pub dst: bool,
}

// An accepted book, and the table of the offsets at which its entries start.
#[derive(Clone, Copy)]
pub struct Opened<'a> {
    pub book: &'a [u8],
    pub table: &'a [u16; PLACES],
    pub ghost ready: { Ready book.now table.now },
}

impl Opened<'_> {
    // Where the low byte of the entry count stands, past the heads before its own.
    const COUNT_LOW: usize = Sizes::SIZE + Head::ENTRIES + 1;

    // Read with no test of the book's end.
    pub(crate) fn sizes(&self) -> Sizes
        ensures { result ≡ sizes_at self.now.book.now }
    {
        Sizes {
            cores: be16_within(self.book, 0),
            others: be16_within(self.book, 2),
            bodies: be32_within(self.book, 4),
        }
    }

    // The segment at position k is a core segment.
    pub(crate) fn is_core(&self, k: u8) -> bool
        ensures { result ≡ (segment_at self.now.book.now k).core }
    {
        u16::from(k) < self.sizes().cores
    }

    // How many entries a segment has: in an accepted book that fits the low byte.
    pub(crate) fn count_of(&self, k: u8) -> u8
        requires { k < segment_count self.now.book.now }
        ensures { (result ≡ entry_count (segment_at self.now.book.now k)) × (result ≤ max_entries) }
    {
        self.book[Opened::COUNT_LOW + Head::SIZE * usize::from(k)]
    }

    // Where entry i of the segment at position k starts.
    pub(crate) fn offset_at(&self, k: u8, i: u8) -> usize
        requires k_lt_max_segments { k < max_segments }
        requires i_lt_max_entries { i < max_entries }
        ensures { (result ≡ get_or self.now.table.now (max_entries * k + i) 0) × (result < 2 ^ 16) }
    {
        usize::from(self.table[Limits::ENTRIES * usize::from(k) + usize::from(i)])
    }

    pub(crate) fn as_at(&self, k: u8, i: u8) -> IsdAsn
        requires k_bound { k < segment_count self.now.book.now }
        requires i_bound { i < entry_count (segment_at self.now.book.now k) }
        ensures { result ≡ as_of (segment_at self.now.book.now k) i }
    {
        as_within(self.book, self.offset_at(k, i))
    }

    // The AS of a segment's leaf.
    pub(crate) fn leaf_as(&self, k: u8) -> IsdAsn
        requires k_bound { k < segment_count self.now.book.now }
        requires nonzero { 0 < entry_count (segment_at self.now.book.now k) }
        ensures { result ≡ leaf_as (segment_at self.now.book.now k) }
    {
        self.as_at(k, self.count_of(k) - 1)
    }

    // The first of the entries below n that has an AS.
    pub(crate) fn find_as(&self, k: u8, a: IsdAsn, n: u8) -> Option<u8>
        requires k_bound { k < segment_count self.now.book.now }
        requires n_bound { n ≤ entry_count (segment_at self.now.book.now k) }
        ensures { FoundEntry (segment_at self.now.book.now k) a n result }
    {
        for i in 0..n {
            if self.as_at(k, i) == a {
                return Some(i);
            }
        }
        None
    }

    // An entry has the AS `src`, and one has `dst`. Every entry is looked at, so that the tests are no branches.
    pub(crate) fn ends_among_entries(&self, k: u8, src: IsdAsn, dst: IsdAsn) -> Ends
        requires { k < segment_count self.now.book.now }
        ensures { (result.src ≡ has_as (segment_at self.now.book.now k) src) × (result.dst ≡ has_as (segment_at self.now.book.now k) dst) }
    {
        let n = self.count_of(k);
        let mut a = false;
        let mut b = false;
        for i in 0..n {
            let x = self.as_at(k, i);
            a |= x == src;
            b |= x == dst;
        }
        Ends { src: a, dst: b }
    }

    pub(crate) fn peer_count(&self, k: u8, i: u8) -> u8
        requires k_bound { k < segment_count self.now.book.now }
        requires i_bound { i < entry_count (segment_at self.now.book.now k) }
        ensures { result ≡ peer_count_of (segment_at self.now.book.now k) i }
    {
        peers_at(self.book, self.offset_at(k, i))
    }

    // One more than the last peer of entry i that has a link; 0 where none has.
    pub(crate) fn find_peer(&self, k: u8, i: u8, link: Link) -> u8
        requires k_bound { k < segment_count self.now.book.now }
        requires i_bound { i < entry_count (segment_at self.now.book.now k) }
        ensures { result ≡ peer_linked (segment_at self.now.book.now k) (end_of link) i }
    {
        let at = self.offset_at(k, i);
        if as_within(self.book, at) != link.local {
            return 0;
        }
        let mut p = peers_at(self.book, at);
        while p > 0 {
            if same_peer(self.book, peer_offset(at, p - 1), link) {
                return p;
            }
            p -= 1;
        }
        0
    }

    // The link of peer p of entry i.
    pub(crate) fn link_at(&self, k: u8, i: u8, p: u8) -> Link
        requires k_bound { k < segment_count self.now.book.now }
        requires i_bound { i < entry_count (segment_at self.now.book.now k) }
        requires p_bound { p < peer_count_of (segment_at self.now.book.now k) i }
        ensures { end_of result ≡ link_of (segment_at self.now.book.now k) i p }
    {
        let start = self.offset_at(k, i);
        let at = peer_offset(start, p);
        Link {
            local: as_within(self.book, start),
            ingress: be16_within(self.book, at + PeerEntry::INGRESS),
            peer: as_within(self.book, at),
            interface: be16_within(self.book, at + PeerEntry::INTERFACE),
        }
    }
}
