// Whether an AS stands twice in a row of the table of offsets.
ghost use Rattle.std.specs.Prelude.{◌≡◌, ◌<◌};
ghost use Rattle.book.specs.Repeats.{earlier, twice, place_as, Within};
ghost use Rattle.book.specs.Marks.{Marked};

use crate::marks::Marks;
use crate::numbers::isd_asn;
use crate::offsets::PLACES;
use spec::IsdAsn;

// The offsets of a body's first `count` entries, which stand in the table from place `row` on.
#[derive(Clone, Copy)]
pub(crate) struct Row<'a> {
    pub book: &'a [u8],
    pub table: &'a [u16; PLACES],
    pub row: usize,
    pub count: usize,
    ghost within: { Within book.now table.now row count },
}

impl Row<'_> {
    // The AS of entry i.
    fn isd_asn(&self, i: usize) -> IsdAsn
        requires { i < self.now.count }
        ensures { result ≡ place_as self.now.book.now self.now.table.now self.now.row i }
    {
        isd_asn(self.book, usize::from(self.table[self.row + i]))
    }

    // The AS of entry i stands earlier in the row.
    fn stands_earlier(&self, i: usize) -> bool
        requires { i < self.now.count }
        ensures { result ≡ earlier (place_as self.now.book.now self.now.table.now self.now.row) i }
    {
        let a = self.isd_asn(i);
        for j in 0..i {
            if self.isd_asn(j) == a {
                return true;
            }
        }
        false
    }

    // The same, where the entries before are marked: an AS that is not does not stand earlier.
    fn stands_marked(&self, i: usize, seen: Marks) -> bool
        requires i_bound { i < self.now.count }
        requires marked { Marked (place_as self.now.book.now self.now.table.now self.now.row) seen.0 i }
        ensures { result ≡ earlier (place_as self.now.book.now self.now.table.now self.now.row) i }
    {
        if !seen.has(self.isd_asn(i)) {
            return false;
        }
        self.stands_earlier(i)
    }

    // The AS of some entry does.
    pub(crate) fn passes_twice(&self) -> bool
        ensures { result ≡ twice (place_as self.now.book.now self.now.table.now self.now.row) self.now.count }
    {
        let mut seen = Marks::none();
        for i in 0..self.count {
            if self.stands_marked(i, seen) {
                return true;
            }
            seen = seen.with(self.isd_asn(i));
        }
        false
    }
}
