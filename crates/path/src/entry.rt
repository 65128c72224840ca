// What a path holds of one entry.
ghost use Rattle.std.specs.Prelude.{◌≡◌, ◌++◌, ◌+◌, ◌^◌, ◌≤◌, ◌<◌, length, take, drop};
ghost use Rattle.spec.specs.Limits.{entry_size, hop_size, max_mtu};
ghost use Rattle.spec.specs.Octets.{be16};
ghost use Rattle.spec.specs.Book.{isd_asn_at, as_entry_at};
ghost use Rattle.spec.specs.Edges.{as_of};
ghost use Rattle.output.specs.Write.{written};
ghost use Rattle.spec.specs.Assembly.{least, mtus_at, hop_of, segment_of};
ghost use Rattle.spec.specs.Records.{hop_octets};
ghost use Rattle.path.specs.Edges.{edge_by};
ghost use Rattle.path.specs.Places.{as_size, id_size, entry_ases, entry_ids, Wrote, Appended};
ghost use Rattle.path.specs.Parts.{Hops, link_mtus, ingress_shown, shown_as, as_if, id_if, interfaces_here, entry_bytes, EntryWalked};

use crate::places::PlacedEntry;
use crate::{places, within};
use spec::{AsEntry, HopField, PathInterface, PeerEntry, SolutionEdge};

// ---- hops

// An entry's own hop: in the book its units stand after the interfaces. It is put together in a local one, which the compiler moves as a whole.
fn put_own_hop(book: &[u8], at: usize, out: &mut [u8], to: usize)
    requires entry_size_in_bounds { at + entry_size ≤ length book.now }
    requires at_bound { at < 2 ^ 16 }
    requires hop_size_in_bounds { to + hop_size ≤ length out.old }
    ensures { out.new ≡ written out.old to (hop_octets (as_entry_at book.now at).hop) }
{
    let mut r = [0u8; HopField::SIZE];
    r[0] = book[at + AsEntry::UNITS];
    within::copy(book, at + AsEntry::INGRESS, &mut r, 1, 4);
    within::copy(book, at + AsEntry::MAC, &mut r, 5, HopField::MAC);
    within::copy(&r, 0, out, to, HopField::SIZE);
}

// A peer's hop stands in the book as in a path; it too goes by way of a local one.
fn put_peer_hop(book: &[u8], from: usize, out: &mut [u8], to: usize)
    requires { (from + hop_size ≤ length book.now) × (to + hop_size ≤ length out.old) }
    ensures { out.new ≡ written out.old to (take hop_size (drop from book.now)) }
{
    let mut r = [0u8; HopField::SIZE];
    within::copy(book, from, &mut r, 0, HopField::SIZE);
    within::copy(&r, 0, out, to, HopField::SIZE);
}

// ---- interfaces

// The ids of the interfaces at an entry, in the path's order; 0 where one is not shown.
#[derive(Clone, Copy)]
pub(crate) struct ShownIds {
    first: u16,
    second: u16,
}

// At a shortcut above the segment's first entry, without a peer, no ingress is shown.
fn shown_ingress(e: SolutionEdge, m: usize, ingress: u16) -> u16
    ensures { result ≡ ingress_shown (edge_by e) m ingress }
{
    if e.peer == 0 && places::is_inner_shortcut(e, m) {
        return 0;
    }
    ingress
}

// The AS at an offset of the book. Where no id is shown it is written all the same, and the next one goes over it: the
// write needs no branch.
fn put_as(book: &[u8], at: usize, ases: &mut [u8], to: usize, id: u16) -> usize
    requires { (at + as_size ≤ length book.now) × (to + as_size ≤ length ases.old) }
    ensures { Appended ases.old to (as_if (isd_asn_at book.now at) id) ases.new result × (result ≤ to + as_size) }
{
    let mut r = [0u8; PathInterface::AS];
    within::copy(book, at, &mut r, 0, PathInterface::AS);
    within::copy(&r, 0, ases, to, PathInterface::AS);
    if id == 0 {
        return to;
    }
    to + PathInterface::AS
}

fn put_id(ids: &mut [u8], to: usize, id: u16) -> usize
    requires { to + id_size ≤ length ids.old }
    ensures { Appended ids.old to (id_if id) ids.new result × (result ≤ to + id_size) }
{
    within::put16(ids, to, id);
    if id == 0 {
        return to;
    }
    to + PathInterface::ID
}

// ---- MTUs

// An MTU of 0 says none: then the most that one can be.
fn or_max(x: u16) -> u16
    ensures { (x ≡ 0 → result ≡ max_mtu) × ((x ≡ 0 → ⊥) → result ≡ x) }
{
    if x == 0 {
        return u16::MAX;
    }
    x
}

// ---- one entry

// Where the next hop, AS and id go, each in its buffer, and the least MTU and units so far.
#[derive(Clone, Copy)]
pub(crate) struct Walk {
    pub hops: usize,
    pub ases: usize,
    pub ids: usize,
    pub mtu: u16,
    pub units: u8,
}

impl<'a> PlacedEntry<'a> {
    fn units(&self) -> u8
        ensures { result ≡ (hop_of (segment_of self.now.book.now (edge_by self.now.edge)) (edge_by self.now.edge) self.now.m).units }
    {
        if places::is_peer_hop(self.edge, self.m) {
            let link = places::link_offset(self.edge, self.at);
            return self.book[link + PeerEntry::HOP];
        }
        self.book[self.at + AsEntry::UNITS]
    }

    // Where the hop's two interface ids stand, ingress before egress.
    fn ids_offset(&self) -> usize
        ensures { (be16 self.now.book.now result ≡ (hop_of (segment_of self.now.book.now (edge_by self.now.edge)) (edge_by self.now.edge) self.now.m).ingress) × (be16 self.now.book.now (result + 2) ≡ (hop_of (segment_of self.now.book.now (edge_by self.now.edge)) (edge_by self.now.edge) self.now.m).egress) × (result + 4 ≤ length self.now.book.now) }
    {
        if places::is_peer_hop(self.edge, self.m) {
            return places::link_offset(self.edge, self.at) + PeerEntry::INGRESS;
        }
        self.at + AsEntry::INGRESS
    }

    fn put_hop(&self, out: &mut [u8], to: usize) -> usize
        requires { to + hop_size ≤ length out.old }
        ensures { Wrote out.old to (entry_bytes self.now.book.now (edge_by self.now.edge) Hops self.now.m) out.new result × (result ≤ to + hop_size) }
    {
        within::all_bytes(self.book);
        if places::is_peer_hop(self.edge, self.m) {
            let from = places::link_offset(self.edge, self.at) + PeerEntry::HOP;
            put_peer_hop(self.book, from, out, to);
            return to + HopField::SIZE;
        }
        put_own_hop(self.book, self.at, out, to);
        to + HopField::SIZE
    }

    fn shown(&self) -> ShownIds
        ensures { interfaces_here self.now.book.now (edge_by self.now.edge) self.now.m ≡ shown_as (as_of (segment_of self.now.book.now (edge_by self.now.edge)) self.now.m) result.first ++ shown_as (as_of (segment_of self.now.book.now (edge_by self.now.edge)) self.now.m) result.second }
    {
        let from = self.ids_offset();
        let ingress = shown_ingress(self.edge, self.m, within::read16(self.book, from));
        let egress = within::read16(self.book, from + 2);
        if self.edge.construction {
            return ShownIds {
                first: ingress,
                second: egress,
            };
        }
        ShownIds {
            first: egress,
            second: ingress,
        }
    }

    // The MTU of the link over which the entry is entered, if it counts, else the most.
    fn link_mtu(&self) -> u16
        ensures { result ≡ least max_mtu (link_mtus (segment_of self.now.book.now (edge_by self.now.edge)) (edge_by self.now.edge) self.now.m) }
    {
        if places::is_peer_hop(self.edge, self.m) {
            return within::read16(
                self.book,
                places::link_offset(self.edge, self.at) + PeerEntry::MTU,
            );
        }
        if places::is_inner_shortcut(self.edge, self.m) {
            return u16::MAX;
        }
        or_max(within::read16(self.book, self.at + AsEntry::INGRESS_MTU))
    }

    // The least of x and the entry's MTUs.
    fn least_mtu(&self, x: u16) -> u16
        ensures { result ≡ least x (mtus_at (segment_of self.now.book.now (edge_by self.now.edge)) (edge_by self.now.edge) self.now.m) }
    {
        let own = (within::read32(self.book, self.at + AsEntry::MTU) % 65536) as u16;
        x.min(self.link_mtu()).min(own)
    }

    // All that a path holds of the entry, at once: entries are gone over once.
    pub(crate) fn put(&self, w: Walk, out: &mut [u8], ases: &mut [u8], ids: &mut [u8]) -> Walk
        requires { (w.hops + hop_size ≤ length out.old) × (w.ases + entry_ases ≤ length ases.old) × (w.ids + entry_ids ≤ length ids.old) }
        ensures entry_walked { EntryWalked self.now.book.now (edge_by self.now.edge) self.now.m out.old out.new ases.old ases.new ids.old ids.new w result }
        ensures hops_bound { (result.hops ≤ w.hops + hop_size) × (result.ases ≤ w.ases + entry_ases) × (result.ids ≤ w.ids + entry_ids) }
    {
        let shown = self.shown();
        let hops = self.put_hop(out, w.hops);
        let next_as = put_as(self.book, self.at, ases, w.ases, shown.first);
        let end_as = put_as(self.book, self.at, ases, next_as, shown.second);
        let next_id = put_id(ids, w.ids, shown.first);
        let end_id = put_id(ids, next_id, shown.second);
        let mtu = self.least_mtu(w.mtu);
        let units = w.units.min(self.units());
        Walk {
            hops,
            ases: end_as,
            ids: end_id,
            mtu,
            units,
        }
    }
}
