// A body of a book, and the row of the table that its entries' offsets go to.
ghost use Rattle.std.specs.Prelude.{◌≡◌, true, Ok, ◌*◌, ◌^◌, ◌≤◌, ◌<◌, length};
ghost use Rattle.spec.specs.Limits.{max_segments, max_entries};
ghost use Rattle.spec.specs.Book.{entries_verdict};
ghost use Rattle.book.specs.Offsets.{with_row};
ghost use Rattle.book.specs.Sizes.{InBook, Counted};
ghost use Rattle.book.specs.Repeats.{RowPassed};

use crate::marks::Marks;
use crate::numbers::isd_asn;
use crate::offsets::PLACES;
use crate::twice::Row;
use spec::{AsEntry, Limits, PeerEntry, Refusal};

// Where it starts and ends, how many entries it has, and the place of the table at which its row begins.
#[derive(Clone, Copy)]
pub(crate) struct Body<'a> {
    pub book: &'a [u8],
    pub row: usize,
    pub start: usize,
    pub end: usize,
    pub count: usize,
    ghost in_book: { InBook book.now row start end count },
}

impl Body<'_> {
    // How many peers the entry at an offset has.
    fn peers(&self, at: usize) -> Result<usize, Refusal>
        requires { at < 2 ^ 32 }
        ensures { Counted self.now.book.now self.now.end at result }
    {
        // So too where the peers of the entry before run past the end.
        if self.end < at + AsEntry::SIZE {
            return Err(Refusal::Misfit);
        }
        let peers = usize::from(self.book[at + AsEntry::PEER_COUNT]);
        if Limits::PEERS < peers {
            return Err(Refusal::Peers);
        }
        Ok(peers)
    }

    // Tests the entries, and stores their offsets.
    pub(crate) fn fill(&self, table: &mut [u16; PLACES]) -> Result<(), Refusal>
        ensures { (result ≡ entries_verdict self.now.book.now self.now.end self.now.start self.now.count) × (result ≡ Ok tt → table.new ≡ with_row self.now.book.now self.now.start self.now.row self.now.count table.old) }
    {
        let mut at = self.start;
        for i in 0..self.count {
            let peers = self.peers(at)?;
            table[self.row + i] = at as u16;
            at += AsEntry::SIZE + PeerEntry::SIZE * peers;
        }
        if at != self.end {
            return Err(Refusal::Misfit);
        }
        Ok(())
    }

    // ---- true only where the entries fit and none has an AS that stands earlier, and then their offsets are stored

    // Of at most two entries. They are many: to compare the two is less work than to mark them, and `fill` with its loop takes longer.
    fn passes_short(&self, table: &mut [u16; PLACES]) -> bool
        requires { self.now.count ≤ 2 }
        ensures { result ≡ true → RowPassed self.now.book.now self.now.row self.now.start self.now.end self.now.count table.old table.new }
    {
        if self.count == 0 {
            return self.start == self.end;
        }
        let Ok(peers) = self.peers(self.start) else {
            return false;
        };
        table[self.row] = self.start as u16;
        let at = self.start + AsEntry::SIZE + PeerEntry::SIZE * peers;
        if self.count == 1 {
            return at == self.end;
        }
        let Ok(others) = self.peers(at) else {
            return false;
        };
        table[self.row + 1] = at as u16;
        if at + AsEntry::SIZE + PeerEntry::SIZE * others != self.end {
            return false;
        }
        isd_asn(self.book, self.start) != isd_asn(self.book, at)
    }

    // Of any number of entries. Only where a mark is seen again are ASes compared.
    fn passes_marked(&self, table: &mut [u16; PLACES]) -> bool
        requires { length table.old ≡ max_segments * max_entries }
        ensures { result ≡ true → RowPassed self.now.book.now self.now.row self.now.start self.now.end self.now.count table.old table.new }
    {
        let mut seen = Marks::none();
        let mut again = false;
        let mut at = self.start;
        for i in 0..self.count {
            let Ok(peers) = self.peers(at) else {
                return false;
            };
            table[self.row + i] = at as u16;
            let a = isd_asn(self.book, at);
            again = again | seen.has(a);
            seen = seen.with(a);
            // Each offset waits for the one before, and so this sum is sooner there than with a product by 23.
            at = at + AsEntry::SIZE - peers + (PeerEntry::SIZE + 1) * peers;
        }
        if at != self.end {
            return false;
        }
        if !again {
            return true;
        }
        let stored = Row {
            book: self.book,
            table,
            row: self.row,
            count: self.count,
        };
        !stored.passes_twice()
    }

    // By the number of entries.
    pub(crate) fn passes(&self, table: &mut [u16; PLACES]) -> bool
        requires { length table.old ≡ max_segments * max_entries }
        ensures { result ≡ true → RowPassed self.now.book.now self.now.row self.now.start self.now.end self.now.count table.old table.new }
    {
        if self.count <= 2 {
            return self.passes_short(table);
        }
        self.passes_marked(table)
    }
}
