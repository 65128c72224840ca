// The interfaces of a record's path, without the path.
ghost use Rattle.std.specs.Prelude.{◌≡◌, ◌+◌, ◌*◌, ◌≤◌, ◌<◌, length};
ghost use Rattle.spec.specs.Limits.{solution_size, max_edges, max_entries};
ghost use Rattle.spec.specs.Routes.{same_interface, same_interfaces};
ghost use Rattle.path.specs.Places.{entry_ases, entry_ids};
ghost use Rattle.path.specs.Slots.{record_at, shown_at, shown_in, OfBook, Shows};

use crate::places::PlacedRecord;
use crate::within;
use graph::Opened;
use spec::{Path, PathInterface, Solution};

// How many interfaces there are, and the path's expiry.
#[derive(Clone, Copy)]
pub(crate) struct Shown {
    pub count: usize,
    pub expiry: u32,
}

// The record in slot k.
pub(crate) fn record_in(out: &[u8], k: usize) -> [u8; Solution::SIZE]
    requires { solution_size * (k + 1) ≤ length out.now }
    ensures { result ≡ record_at out.now k }
{
    let mut r = [0u8; Solution::SIZE];
    within::copy(out, Solution::SIZE * k, &mut r, 0, Solution::SIZE);
    r
}

// Leaves the ASes and the ids of the interfaces, each at the front of its buffer.
pub(crate) fn walk(opened: &Opened, given: &[u8], ases: &mut [u8], ids: &mut [u8]) -> Shown
    requires of_book { OfBook opened.now.book.now given.now }
    requires max_edges_in_bounds { (entry_ases * max_entries * max_edges ≤ length ases.old) × (entry_ids * max_entries * max_edges ≤ length ids.old) }
    ensures { Shows opened.now.book.now given.now ases.new ids.new result }
{
    within::all_bytes(opened.book);
    let record = PlacedRecord {
        opened: *opened,
        given,
        count: usize::from(records::edge_count(given)),
    };
    let mut hops = [0u8; Path::SIZE];
    let ends = record.put_edges(&mut hops, ases, ids);
    Shown {
        count: ends.ases / PathInterface::AS,
        expiry: ends.expiry,
    }
}

// The interfaces of a path: their ASes at the front of one buffer, and their ids at that of another.
#[derive(Clone, Copy)]
pub(crate) struct Interfaces<'a> {
    pub ases: &'a [u8],
    pub ids: &'a [u8],
    pub count: usize,
    pub ghost in_bounds: { (8 * count ≤ length ases.now) × (2 * count ≤ length ids.now) },
}

impl<'a> Interfaces<'a> {
    // The one at index k is the same in both.
    fn same_at(&self, others: &Interfaces, k: usize) -> bool
        requires { (k < self.now.count) × (k < others.now.count) }
        ensures { result ≡ same_interface (shown_at self.now.ases.now self.now.ids.now k) (shown_at others.now.ases.now others.now.ids.now k) }
    {
        let at = PathInterface::AS * k;
        if within::read64(self.ases, at) != within::read64(others.ases, at) {
            return false;
        }
        within::read16(self.ids, PathInterface::ID * k)
            == within::read16(others.ids, PathInterface::ID * k)
    }

    // All are.
    pub(crate) fn same(&self, others: &Interfaces) -> bool
        requires { others.now.count ≡ self.now.count }
        ensures { result ≡ same_interfaces (shown_in self.now.ases.now self.now.ids.now self.now.count) (shown_in others.now.ases.now others.now.ids.now self.now.count) }
    {
        for k in 0..self.count {
            if !self.same_at(others, k) {
                return false;
            }
        }
        true
    }
}
