// The first of equal segments, in an opened book. Few segments have the timestamp, id and entry count of another and
// the same bytes of its first entry, so that few are compared.
ghost use Rattle.std.specs.Prelude.{◌≡◌, true, false, ◌≤◌, ◌<◌, length, get_or};
ghost use Rattle.spec.specs.Limits.{max_segments, entry_size};
ghost use Rattle.spec.specs.Book.{segments, segment_at, segment_count};
ghost use Rattle.spec.specs.Edges.{is_first};
ghost use Rattle.graph.specs.Leaving.{entry_count};
ghost use Rattle.graph.specs.FirstOfEquals.{word_end, head_word_at, entry_word_at, NoneBelow, mark_of, first_at, Firsts};

use crate::opened::{Opened, be64_within};
use spec::{AsEntry, Head, HopField, Limits, Sizes};

// ---- one position

// Timestamp, id and entry count of a segment, as they stand in its head: one number.
fn head_word(opened: &Opened, k: usize) -> u64
    requires k_bound { k < segment_count opened.now.book.now }
    ensures { result ≡ head_word_at opened.now.book.now k }
{
    be64_within(opened.book, Sizes::SIZE + Head::SIZE * k)
}

// Where bytes of an entry stand that differ in most entries: the low byte of its egress, which units and MAC follow,
// and the last byte of the MAC.
const EGRESS_LOW: usize = AsEntry::EGRESS + 1;

const MAC_LAST: usize = AsEntry::MAC + HopField::MAC - 1;

// Of a segment's first entry the low byte of the egress, the units and the MAC: one number. Where the segment has no
// entry, the table has 0, and the bytes there are the same for all such segments.
fn entry_word(opened: &Opened, k: usize) -> u64
    requires k_bound { k < segment_count opened.now.book.now }
    requires word_end_in_bounds { word_end ≤ length opened.now.book.now }
    ensures { result ≡ entry_word_at opened.now.book.now opened.now.table.now k }
{
    be64_within(
        opened.book,
        usize::from(opened.table[Limits::ENTRIES * k]) + EGRESS_LOW,
    )
}

// From a position on, below which no equal of the segment at `end` stands, the first that has both its numbers, or `end`.
fn next_alike(opened: &Opened, word: u64, last: u64, from: usize, end: usize) -> usize
    requires end_bound { end < segment_count opened.now.book.now }
    requires word_end_in_bounds { word_end ≤ length opened.now.book.now }
    requires word_value { (word ≡ head_word_at opened.now.book.now end) × (last ≡ entry_word_at opened.now.book.now opened.now.table.now end) }
    requires none_below { NoneBelow opened.now.book.now end from }
    ensures { (from ≤ result) × NoneBelow opened.now.book.now end result }
{
    for j in from..end {
        if head_word(opened, j) == word && entry_word(opened, j) == last {
            return j;
        }
    }
    end
}

// Where those of its kind begin: a segment of the other kind is no equal.
fn kind_start(opened: &Opened, k: u8) -> usize
    ensures { NoneBelow opened.now.book.now k result }
{
    let cores = usize::from(opened.sizes().cores);
    if usize::from(k) < cores {
        return 0;
    }
    cores
}

// No equal segment stands at a lower position; below `from` none does.
fn none_from(opened: &Opened, k: u8, from: usize) -> bool
    requires k_bound { k < segment_count opened.now.book.now }
    requires word_end_in_bounds { word_end ≤ length opened.now.book.now }
    requires none_below { NoneBelow opened.now.book.now k from }
    ensures { result ≡ is_first (segments opened.now.book.now) (segment_at opened.now.book.now k) }
{
    let end = usize::from(k);
    let word = head_word(opened, end);
    let last = entry_word(opened, end);
    let mut j = next_alike(opened, word, last, from, end);
    while j < end {
        if equal::same_segment(opened.book, k, j as u8) {
            return false;
        }
        j = next_alike(opened, word, last, j + 1, end);
    }
    true
}

// No equal segment stands at a lower position. Mostly no other is alike; what is rare stands in `none_from`, so that
// the compiler inlines this function.
pub(crate) fn is_first(opened: &Opened, k: u8) -> bool
    requires k_bound { k < segment_count opened.now.book.now }
    requires nonzero { 0 < entry_count (segment_at opened.now.book.now k) }
    ensures { result ≡ is_first (segments opened.now.book.now) (segment_at opened.now.book.now k) }
{
    let end = usize::from(k);
    let word = head_word(opened, end);
    let last = entry_word(opened, end);
    let j = next_alike(opened, word, last, kind_start(opened, k), end);
    if end <= j {
        return true;
    }
    none_from(opened, k, j)
}

// ---- all positions

// Byte i of a body, which lies in its first entry, or 0 where the body is empty.
fn body_byte(opened: &Opened, k: u8, i: usize) -> u8
    requires k_bound { k < segment_count opened.now.book.now }
    requires i_lt_entry_size { i < entry_size }
    ensures { result ≡ get_or (segment_at opened.now.book.now k).body i 0 }
{
    if opened.count_of(k) == 0 {
        return 0;
    }
    opened.book[opened.offset_at(k, 0) + i]
}

// Where the low bytes of timestamp and id stand in a head.
const TIMESTAMP_LOW: usize = Head::TIMESTAMP + 3;

const ID_LOW: usize = Head::ID + 1;

// The low bytes of timestamp and id and two of the body, in one byte.
fn mark_of(opened: &Opened, k: u8) -> u8
    requires k_bound { k < segment_count opened.now.book.now }
    ensures { result ≡ mark_of (segment_at opened.now.book.now k) }
{
    let head = Sizes::SIZE + Head::SIZE * usize::from(k);
    let low = u16::from(opened.book[head + TIMESTAMP_LOW]) + u16::from(opened.book[head + ID_LOW]);
    let egress = u16::from(body_byte(opened, k, EGRESS_LOW));
    let mac = u16::from(body_byte(opened, k, MAC_LAST));
    ((low + egress + mac) % 256) as u8
}

// The segment at k is the first of its equals. Equal segments have one mark: it is the first where its mark was not seen before.
fn first_at(opened: &Opened, k: u8, seen: bool) -> bool
    requires k_bound { k < segment_count opened.now.book.now }
    requires k_value { seen ≡ false → is_first (segments opened.now.book.now) (segment_at opened.now.book.now k) ≡ true }
    requires word_end_in_bounds { seen ≡ true → word_end ≤ length opened.now.book.now }
    ensures { result ≡ first_at opened.now.book.now k }
{
    if !seen {
        return true;
    }
    none_from(opened, k, kind_start(opened, k))
}

pub(crate) fn firsts_of(opened: &Opened, count: u8) -> [bool; Limits::SEGMENTS]
    requires count_value { (count ≡ segment_count opened.now.book.now) × (count ≤ max_segments) }
    ensures { Firsts opened.now.book.now count result }
{
    let mut firsts = [false; Limits::SEGMENTS];
    let mut seen = [false; 256];
    for k in 0..count {
        let m = usize::from(mark_of(opened, k));
        firsts[usize::from(k)] = first_at(opened, k, seen[m]);
        seen[m] = true;
    }
    firsts
}
