// The record of a whole path: the edges of a solution's record one after the other.
ghost use Rattle.std.specs.Prelude.{◌≡◌, ◌+◌, ◌*◌, ◌≤◌, ◌<◌, length};
ghost use mathlib.Core.List.{flat_map};
ghost use Rattle.spec.specs.Limits.{max_edges, max_entries, solution_head_size, edge_size, info_size, path_size};
ghost use Rattle.spec.specs.Basics.{padded};
ghost use Rattle.spec.specs.Assembly.{combined_path};
ghost use Rattle.spec.specs.Records.{record_edge, path_head, path_octets};
ghost use Rattle.path.specs.Edges.{edges_in};
ghost use Rattle.path.specs.Places.{Wrote, entry_ases, entry_ids};
ghost use Rattle.path.specs.Parts.{info_bytes};
ghost use Rattle.path.specs.Whole.{EndsOf, HopsAndIds};

use crate::entry::Walk;
use crate::places::{PlacedEdge, PlacedRecord};
use crate::within;
use spec::{HopField, InfoField, Path, PathInterface, Solution, SolutionEdge};

// Edge x of a record. `records::edge` reads the same with a test of the record's end, which costs 3 % of an assembly.
fn edge_in(given: &[u8], x: usize) -> SolutionEdge
    requires { solution_head_size + edge_size * x + edge_size ≤ length given.now }
    ensures { result ≡ record_edge given.now x }
{
    let at = Solution::HEAD + SolutionEdge::SIZE * x;
    SolutionEdge {
        position: given[at],
        shortcut: given[at + SolutionEdge::SHORTCUT],
        peer: given[at + SolutionEdge::PEER],
        construction: given[at + SolutionEdge::DIRECTION] == 1,
    }
}

// Where hops, ASes and ids end, each in its buffer, the path's MTU and its expiry.
#[derive(Clone, Copy)]
pub(crate) struct Ends {
    pub hops: usize,
    pub ases: usize,
    pub ids: usize,
    pub mtu: u16,
    pub expiry: u32,
}

impl<'a, 'b> PlacedRecord<'a, 'b> {
    pub(crate) fn put_infos(&self, out: &mut [u8], at: usize) -> usize
        requires { at + max_edges * info_size ≤ length out.old }
        ensures { Wrote out.old at (flat_map (info_bytes self.now.opened.book.now) (edges_in self.now.given.now self.now.count)) out.new result × (result ≤ at + max_edges * info_size) }
    {
        let mut to = at;
        for x in 0..self.count {
            let edge = PlacedEdge {
                opened: self.opened,
                edge: edge_in(self.given, x),
            };
            to = edge.put_info(out, to);
        }
        to
    }

    // ---- hops, ASes and ids

    // The hops go where they stand in the path's record; where ASes and ids stand is known when all are.
    pub(crate) fn put_edges(&self, out: &mut [u8], ases: &mut [u8], ids: &mut [u8]) -> Ends
        requires { (path_size ≤ length out.old) × (entry_ases * max_entries * max_edges ≤ length ases.old) × (entry_ids * max_entries * max_edges ≤ length ids.old) }
        ensures ends_of { EndsOf self.now.opened.book.now (edges_in self.now.given.now self.now.count) ases.new result }
        ensures hops_and_ids { HopsAndIds self.now.opened.book.now (edges_in self.now.given.now self.now.count) out.new ids.new result }
    {
        let mut ends = Ends {
            hops: Path::HEAD + InfoField::SIZE * self.count,
            ases: 0,
            ids: 0,
            mtu: u16::MAX,
            expiry: u32::MAX,
        };
        for x in 0..self.count {
            let edge = PlacedEdge {
                opened: self.opened,
                edge: edge_in(self.given, x),
            };
            let start = Walk {
                hops: ends.hops,
                ases: ends.ases,
                ids: ends.ids,
                mtu: ends.mtu,
                units: u8::MAX,
            };
            let w = edge.put(start, out, ases, ids);
            ends = Ends {
                hops: w.hops,
                ases: w.ases,
                ids: w.ids,
                mtu: w.mtu,
                expiry: ends.expiry.min(edge.expiry(w.units)),
            };
        }
        ends
    }

    // ---- what stands before the infos

    // Counts, MTU, expiry, and the first and last interface's AS.
    fn path_head(&self, ases: &[u8], ends: Ends) -> Path
        requires ends_of { EndsOf self.now.opened.book.now (edges_in self.now.given.now self.now.count) ases.now ends }
        requires ases_nonzero { 0 < ends.ases }
        ensures { result ≡ path_head (combined_path self.now.opened.book.now (edges_in self.now.given.now self.now.count)) }
    {
        let first = segment::isd_asn(ases, 0);
        let last = segment::isd_asn(ases, ends.ases - PathInterface::AS);
        Path::new(
            self.count as u8,
            ((ends.hops - Path::HEAD - InfoField::SIZE * self.count) / HopField::SIZE) as u8,
            (ends.ases / PathInterface::AS) as u8,
            ends.mtu,
            ends.expiry,
            first,
            last,
        )
    }

    // The record of a path with interfaces, whose hops stand.
    pub(crate) fn put_path(&self, out: &mut [u8], ases: &[u8], ids: &[u8], ends: Ends)
        requires ends_of { EndsOf self.now.opened.book.now (edges_in self.now.given.now self.now.count) ases.now ends }
        requires hops_and_ids { HopsAndIds self.now.opened.book.now (edges_in self.now.given.now self.now.count) out.old ids.now ends }
        requires path_size_in_bounds { (path_size ≤ length out.old) × (0 < ends.ases) }
        ensures { out.new ≡ padded (length out.old) (path_octets (combined_path self.now.opened.book.now (edges_in self.now.given.now self.now.count))) }
    {
        let head = self.path_head(ases, ends);
        self.put_infos(out, Path::HEAD);
        let next = ends.hops + ends.ases;
        within::copy(ases, 0, out, ends.hops, ends.ases);
        within::copy(ids, 0, out, next, ends.ids);
        records::put_head(out, head);
        output::zero(out, next + ends.ids);
    }
}
