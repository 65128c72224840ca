// The book's sizes and heads.
ghost use Rattle.std.specs.Prelude.{◌≡◌, ◌+◌, ◌*◌, ◌^◌, ◌≤◌, ◌<◌};
ghost use Rattle.spec.specs.Limits.{sizes_size, head_size};
ghost use Rattle.spec.specs.Book.{segment_count, head_offset, timestamp_at, id_at, entry_count_at, body_length_at, sizes_at, lengths_below, body_offset};

use spec::{Head, Sizes};

pub fn sizes(book: &[u8]) -> Sizes
    ensures { result ≡ sizes_at book.now }
{
    Sizes {
        cores: octets::be16(book, 0),
        others: octets::be16(book, 2),
        bodies: octets::be32(book, 4),
    }
}

pub fn segment_count(book: &[u8]) -> usize
    ensures { (result ≡ segment_count book.now) × (result < 2 ^ 17) }
{
    usize::from(octets::be16(book, 0)) + usize::from(octets::be16(book, 2))
}

// Where the head at position k starts.
fn head_offset(k: usize) -> usize
    requires { k < 2 ^ 32 }
    ensures { (result ≡ head_offset k) × (result ≡ sizes_size + head_size * k) }
{
    Sizes::SIZE + Head::SIZE * k
}

// The fields of the head at position k, a line each: one reader over their places would be no shorter.
pub fn timestamp(book: &[u8], k: u8) -> u32
    ensures { result ≡ timestamp_at book.now k }
{
    octets::be32(book, head_offset(usize::from(k)))
}

pub fn id(book: &[u8], k: u8) -> u16
    ensures { result ≡ id_at book.now k }
{
    octets::be16(book, head_offset(usize::from(k)) + Head::ID)
}

pub fn entry_count(book: &[u8], k: u8) -> u16
    ensures { result ≡ entry_count_at book.now k }
{
    octets::be16(book, head_offset(usize::from(k)) + Head::ENTRIES)
}

pub fn body_length(book: &[u8], k: u8) -> u16
    ensures { result ≡ body_length_at book.now k }
{
    octets::be16(book, head_offset(usize::from(k)) + Head::BODY)
}

// The bytes of the bodies before position k.
fn lengths_below(book: &[u8], k: u8) -> usize
    ensures { (result ≡ lengths_below book.now k) × (result ≤ 65535 * k) }
{
    let mut sum = 0;
    for i in 0..k {
        sum += usize::from(body_length(book, i));
    }
    sum
}

// Where the body at position k starts.
pub fn body_offset(book: &[u8], k: u8) -> usize
    ensures { (result ≡ body_offset book.now k) × (result < 2 ^ 21 + 65535 * k) }
{
    head_offset(segment_count(book)) + lengths_below(book, k)
}
