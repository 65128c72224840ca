// The fingerprint of a segment: SHA-256 over each entry's AS, ingress and egress, in order. It answers for
// any bytes: what lies past the book's end reads as 0.
#![tactic(auto)]

ghost use Rattle.std.specs.Prelude.{◌≡◌, ◌+◌, ◌*◌, ◌^◌, ◌≤◌, ◌<◌, length, take};
ghost use Rattle.spec.specs.Limits.{max_entries};
ghost use Rattle.spec.specs.Book.{segment_at, entry_at};
ghost use Rattle.spec.specs.Order.{entry_input, fingerprint_input};
ghost use Rattle.output.specs.Write.{written};
ghost use Rattle.sha256.specs.Message.{sha256};
ghost use Rattle.fingerprint.specs.Print.{input_size, inputs};

use spec::{AsEntry, Limits};

// The bytes that a segment's fingerprint takes in of an entry: its AS, and ingress and egress, which stand side by side.
const AS: usize = 8;

const ID: usize = 2;

const IDS: usize = 2 * ID;

const AS_AND_ID: usize = AS + ID;

const INPUT: usize = AS + IDS;

// Of all entries.
const MESSAGE: usize = INPUT * Limits::ENTRIES;

// Where ingress and egress stand in an entry.
const INGRESS: u8 = AsEntry::INGRESS as u8;

const EGRESS: u8 = AsEntry::EGRESS as u8;

// Writes what the entry at an offset gives, from `place` on, number by number: the book may end within it.
fn put_numbers(book: &[u8], message: &mut [u8], place: usize, at: usize)
    requires { place < 2 ^ 32 }
    ensures { message.new ≡ written message.old place (entry_input (entry_at book.now at)) }
{
    output::put64(message, place, octets::be64(book, at));
    output::put16(message, place + AS, octets::be16_past(book, at, INGRESS));
    output::put16(
        message,
        place + AS_AND_ID,
        octets::be16_past(book, at, EGRESS),
    );
}

// The same. An entry that lies in the book is copied: its AS stands first, ingress and egress side by side.
fn put_entry(book: &[u8], message: &mut [u8], place: usize, at: usize)
    requires { (place + input_size ≤ length message.old) × (place < 2 ^ 32) × (at < 2 ^ 33) }
    ensures { message.new ≡ written message.old place (entry_input (entry_at book.now at)) }
{
    if at + AsEntry::SIZE <= book.len() {
        let ids = at + AsEntry::INGRESS;
        message[place..place + AS].copy_from_slice(&book[at..at + AS]);
        message[place + AS..place + INPUT].copy_from_slice(&book[ids..ids + IDS]);
    } else {
        put_numbers(book, message, place, at);
    }
}

// What `count` entries from `start` on give, and zeros.
fn message(book: &[u8], start: usize, count: usize) -> [u8; MESSAGE]
    requires count_le_max_entries { count ≤ max_entries }
    requires start_bound { start < 2 ^ 32 }
    ensures { take (input_size * count) result ≡ inputs book.now start count }
{
    let mut m = [0u8; MESSAGE];
    let mut at = start;
    for i in 0..count {
        put_entry(book, &mut m, INPUT * i, at);
        at += segment::entry_size(book, at);
    }
    m
}

// Of the entries past the limit, which an accepted book does not have, nothing is taken in.
pub fn fingerprint(book: &[u8], k: u8) -> [u8; 32]
    ensures { result ≡ sha256 (take (input_size * max_entries) (fingerprint_input (segment_at book.now k))) }
{
    let count = Limits::ENTRIES.min(usize::from(segment::entry_count(book, k)));
    let m = message(book, segment::body_offset(book, k), count);
    sha256::sha256(&m[..INPUT * count])
}
