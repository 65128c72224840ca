// The tests of a book before its bodies, in the order of docs/SPECIFICATION.md 9.3.
ghost use Rattle.std.specs.Prelude.{◌≡◌, ◌+◌, ◌*◌, ◌^◌, ◌≤◌, ◌<◌, length};
ghost use Rattle.spec.specs.Limits.{sizes_size, head_size};
ghost use Rattle.spec.specs.Book.{segment_count, body_offset, too_long};
ghost use Rattle.book.specs.Sizes.{sizes_verdict};

use crate::numbers::{body_length, entry_count};
use spec::{Limits, Refusal, Sizes};

// Some head has more entries than a segment may have.
fn too_long(book: &[u8], segments: usize) -> bool
    requires segments_value { segments ≡ segment_count book.now }
    requires segments_in_bounds { sizes_size + head_size * segments ≤ length book.now }
    ensures { result ≡ too_long book.now }
{
    for k in 0..segments {
        if Limits::ENTRIES < entry_count(book, k) {
            return true;
        }
    }
    false
}

// Where the last body ends; the first starts at `start`.
fn bodies_end(book: &[u8], start: usize, segments: usize) -> usize
    requires start_value { start ≡ body_offset book.now 0 }
    requires start_bound { start < 2 ^ 21 }
    requires segments_bound { segments < 2 ^ 17 }
    requires segments_in_bounds { sizes_size + head_size * segments ≤ length book.now }
    ensures { result ≡ body_offset book.now segments }
{
    let mut at = start;
    for k in 0..segments {
        at += body_length(book, k);
    }
    at
}

// The answer about the sizes and the heads.
pub(crate) fn sizes_verdict(book: &[u8]) -> Result<(), Refusal>
    ensures { result ≡ sizes_verdict book.now }
{
    let n = book.len();
    if Limits::BOOK < n {
        return Err(Refusal::Oversize);
    }
    if n < Sizes::SIZE {
        return Err(Refusal::Cut);
    }
    let segments = segment::segment_count(book);
    if Limits::SEGMENTS < segments {
        return Err(Refusal::Crowded);
    }
    let start = segment::body_offset(book, 0);
    let whole = start + segment::sizes(book).bodies as usize;
    if n < whole {
        return Err(Refusal::Cut);
    }
    if whole < n {
        return Err(Refusal::Surplus);
    }
    if too_long(book, segments) {
        return Err(Refusal::Long);
    }
    // The bodies' lengths make up their total.
    if bodies_end(book, start, segments) != n {
        return Err(Refusal::Misfit);
    }
    Ok(())
}
