// One pass over heads and bodies, for a book that is accepted; it does not tell why another is refused.
ghost use Rattle.std.specs.Prelude.{◌≡◌, true, Ok};
ghost use Rattle.spec.specs.Book.{verdict};
ghost use Rattle.book.specs.Offsets.{no_offsets, offset_table};
ghost use Rattle.book.specs.Sizes.{Fronted};

use crate::body::Body;
use crate::numbers::be16;
use crate::offsets::PLACES;
use spec::{Head, Limits, Sizes};

// The heads with their bodies, by position. Where the next head and the next row stand is counted up: found by the position, opening
// a book of 64 segments takes longer.
fn scan(book: &[u8], table: &mut [u16; PLACES], segments: usize, start: usize) -> bool
    requires fronted { Fronted book.now segments start }
    requires table_value { table.old ≡ no_offsets }
    ensures { result ≡ true → (verdict book.now ≡ Ok tt) × (table.new ≡ offset_table book.now) }
{
    let mut at = start;
    let mut head = Sizes::SIZE;
    let mut row = 0;
    for _k in 0..segments {
        let count = usize::from(be16(book, head + Head::ENTRIES));
        if Limits::ENTRIES < count {
            return false;
        }
        let end = at + usize::from(be16(book, head + Head::BODY));
        if book.len() < end {
            return false;
        }
        let body = Body {
            book,
            row,
            start: at,
            end,
            count,
        };
        if !body.passes(table) {
            return false;
        }
        at = end;
        head += Head::SIZE;
        row += Limits::ENTRIES;
    }
    at == book.len()
}

// Only an accepted book is answered with true, and then the offsets of its entries are stored.
pub(crate) fn open_fast(book: &[u8], table: &mut [u16; PLACES]) -> bool
    requires { table.old ≡ no_offsets }
    ensures { result ≡ true → (verdict book.now ≡ Ok tt) × (table.new ≡ offset_table book.now) }
{
    let n = book.len();
    if Limits::BOOK < n {
        return false;
    }
    if n < Sizes::SIZE {
        return false;
    }
    let segments = segment::segment_count(book);
    if Limits::SEGMENTS < segments {
        return false;
    }
    let start = Sizes::SIZE + Head::SIZE * segments;
    if start + segment::sizes(book).bodies as usize != n {
        return false;
    }
    scan(book, table, segments, start)
}
