// The answer about a book alone, and the table of the offsets at which its entries start: in one pass if it is
// accepted; after that, why it is not.
ghost use Rattle.std.specs.Prelude.{◌≡◌};
ghost use Rattle.spec.specs.Book.{verdict};
ghost use Rattle.book.specs.Offsets.{open_table};

use crate::offsets::{PLACES, fill_rows};
use crate::single_pass::open_fast;
use crate::sizes::sizes_verdict;
use spec::Refusal;

// The tests in their order: the first that fails says which refusal it is.
fn open_slowly(book: &[u8], table: &mut [u16; PLACES]) -> Result<(), Refusal>
    ensures { (result ≡ verdict book.now) × (table.new ≡ open_table book.now) }
{
    let zeros = [0u16; PLACES];
    *table = zeros;
    sizes_verdict(book)?;
    let rows = fill_rows(book, table);
    if rows.is_err() {
        *table = zeros;
    }
    rows
}

// The answer about the book alone, and where the entries of an accepted book start: entry i of position k
// at place `Limits::ENTRIES` k + i, and 0 elsewhere. A refused book leaves zeros.
pub fn open(book: &[u8], table: &mut [u16; PLACES]) -> Result<(), Refusal>
    ensures { (result ≡ verdict book.now) × (table.new ≡ open_table book.now) }
{
    *table = [0u16; PLACES];
    if open_fast(book, table) {
        return Ok(());
    }
    open_slowly(book, table)
}

pub fn verdict(book: &[u8]) -> Result<(), Refusal>
    ensures { result ≡ verdict book.now }
{
    let mut table = [0u16; PLACES];
    open(book, &mut table)
}
