// Numbers of the book that lie within it, read with no test of its end.
ghost use Rattle.std.specs.Prelude.{◌≡◌, ◌+◌, ◌*◌, ◌^◌, ◌≤◌, ◌<◌, length};
ghost use Rattle.spec.specs.Limits.{sizes_size, head_size, entry_size};
ghost use Rattle.spec.specs.Octets.{be16};
ghost use Rattle.spec.specs.Book.{entry_count_at, body_length_at, isd_asn_at};

use spec::{Head, IsdAsn, Sizes};

pub(crate) fn be16(book: &[u8], at: usize) -> u16
    requires { at + 2 ≤ length book.now }
    ensures { result ≡ be16 book.now at }
{
    u16::from_be_bytes([book[at], book[at + 1]])
}

// The fields of the head at position k.
pub(crate) fn entry_count(book: &[u8], k: usize) -> usize
    requires { sizes_size + head_size * k + head_size ≤ length book.now }
    ensures { (result ≡ entry_count_at book.now k) × (result < 2 ^ 16) }
{
    usize::from(be16(book, Sizes::SIZE + Head::SIZE * k + Head::ENTRIES))
}

pub(crate) fn body_length(book: &[u8], k: usize) -> usize
    requires { sizes_size + head_size * k + head_size ≤ length book.now }
    ensures { (result ≡ body_length_at book.now k) × (result < 2 ^ 16) }
{
    usize::from(be16(book, Sizes::SIZE + Head::SIZE * k + Head::BODY))
}

// The AS of the entry at an offset.
pub(crate) fn isd_asn(book: &[u8], at: usize) -> IsdAsn
    requires { at + entry_size ≤ length book.now }
    ensures { result ≡ isd_asn_at book.now at }
{
    IsdAsn(u64::from_be_bytes([
        book[at],
        book[at + 1],
        book[at + 2],
        book[at + 3],
        book[at + 4],
        book[at + 5],
        book[at + 6],
        book[at + 7],
    ]))
}
