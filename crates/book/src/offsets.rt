// The pass over a book's bodies: each entry is tested, and the offset at which it starts is stored.
ghost use Rattle.std.specs.Prelude.{◌≡◌, Ok};
ghost use Rattle.spec.specs.Book.{segment_count, bodies_verdict};
ghost use Rattle.book.specs.Offsets.{no_offsets, offset_table};
ghost use Rattle.book.specs.Sizes.{Sized};

use crate::body::Body;
use crate::numbers::{body_length, entry_count};
use crate::twice::Row;
use spec::{Limits, Refusal};

// The places of the table: a row for each position, a place in it for each entry.
pub const PLACES: usize = Limits::SEGMENTS * Limits::ENTRIES;

// The bodies by position.
pub(crate) fn fill_rows(book: &[u8], table: &mut [u16; PLACES]) -> Result<(), Refusal>
    requires sized { Sized book.now }
    requires table_value { table.old ≡ no_offsets }
    ensures { (result ≡ bodies_verdict book.now 0 (segment_count book.now)) × (result ≡ Ok tt → table.new ≡ offset_table book.now) }
{
    let mut at = segment::body_offset(book, 0);
    for k in 0..segment::segment_count(book) {
        let end = at + body_length(book, k);
        let body = Body {
            book,
            row: Limits::ENTRIES * k,
            start: at,
            end,
            count: entry_count(book, k),
        };
        body.fill(table)?;
        let stored = Row {
            book,
            table,
            row: body.row,
            count: body.count,
        };
        if stored.passes_twice() {
            return Err(Refusal::Twice);
        }
        at = end;
    }
    Ok(())
}
