// What a path holds of one edge: a walk over its hops in the path's order.
ghost use Rattle.std.specs.Prelude.{◌≡◌, map, ◌+◌, ◌*◌, ◌≤◌, ◌<◌, length};
ghost use Rattle.spec.specs.Limits.{max_entries, info_size, hop_size};
ghost use Rattle.spec.specs.Assembly.{least, units_of, info_on, hops_on, expiry_on, id_below, stop_at, segment_of};
ghost use Rattle.path.specs.Edges.{edge_by};
ghost use Rattle.path.specs.Places.{Wrote, entry_ases, entry_ids};
ghost use Rattle.path.specs.Parts.{info_bytes, stop_from, EdgeWalked};

use crate::entry::Walk;
use crate::places::{PlacedEdge, PlacedEntry};
use crate::{places, within};
use spec::{InfoField, SolutionEdge};

// Where the fold stops, from the first hop's entry.
fn stop_from(e: SolutionEdge, k: usize) -> usize
    requires { k < max_entries }
    ensures { (result ≡ stop_from (edge_by e) k) × (result ≤ k + 1) }
{
    if places::is_peer_hop(e, k) {
        return k + 1;
    }
    k
}

impl<'a> PlacedEdge<'a> {
    // ---- hops

    pub(crate) fn put(&self, start: Walk, out: &mut [u8], ases: &mut [u8], ids: &mut [u8]) -> Walk
        requires { (start.hops + hop_size * max_entries ≤ length out.old) × (start.ases + entry_ases * max_entries ≤ length ases.old) × (start.ids + entry_ids * max_entries ≤ length ids.old) }
        ensures edge_walked { EdgeWalked self.now.opened.book.now (edge_by self.now.edge) out.old out.new ases.old ases.new ids.old ids.new start result }
        ensures hops_bound { (result.hops ≤ start.hops + hop_size * max_entries) × (result.ases ≤ start.ases + entry_ases * max_entries) × (result.ids ≤ start.ids + entry_ids * max_entries) }
    {
        let n = self.entry_count();
        let hops = n - usize::from(self.edge.shortcut);
        let mut w = start;
        for j in 0..hops {
            let m = places::entry_of(self.edge, n, j);
            let entry = PlacedEntry {
                book: self.opened.book,
                edge: self.edge,
                m,
                at: self.offset(m),
            };
            w = entry.put(w, out, ases, ids);
        }
        w
    }

    // ---- expiry

    // The end of an edge whose hops have so many units or more; at most the last second that a path can say.
    pub(crate) fn expiry(&self, units: u8) -> u32
        requires { units ≡ least 255 (map units_of (hops_on self.now.opened.book.now (edge_by self.now.edge))) }
        ensures { result ≡ expiry_on self.now.opened.book.now (edge_by self.now.edge) }
    {
        let start = self.timestamp();
        let life = standard::types::exp_time_to_duration(units);
        start.saturating_add(life)
    }

    // ---- info

    // The segment's id, with the MACs of the entries before the first hop folded in.
    fn segment_id(&self) -> u16
        ensures { result ≡ id_below (segment_of self.now.opened.book.now (edge_by self.now.edge)) (stop_at (segment_of self.now.opened.book.now (edge_by self.now.edge)) (edge_by self.now.edge)) }
    {
        let n = self.entry_count();
        let stop = stop_from(self.edge, places::entry_of(self.edge, n, 0));
        let mut id = self.id();
        for i in 0..stop {
            let at = self.offset(i);
            id = standard::mac::mac_beta_step(id, places::mac(self.opened.book, at));
        }
        id
    }

    fn info(&self) -> InfoField
        ensures { result ≡ info_on self.now.opened.book.now (edge_by self.now.edge) }
    {
        let hops = self.entry_count() - usize::from(self.edge.shortcut);
        let id = self.segment_id();
        let timestamp = self.timestamp();
        InfoField {
            construction: self.edge.construction,
            peering: 0 < self.edge.peer,
            hops: hops as u8,
            id,
            timestamp,
        }
    }

    pub(crate) fn put_info(&self, out: &mut [u8], at: usize) -> usize
        requires { at + info_size ≤ length out.old }
        ensures { Wrote out.old at (info_bytes self.now.opened.book.now (edge_by self.now.edge)) out.new result × (result ≡ at + info_size) }
    {
        let r = records::info_octets(self.info());
        within::copy(&r, 0, out, at, InfoField::SIZE);
        at + InfoField::SIZE
    }
}
