// The answers 1 to 7 and 11 about a book, at each limit and one past it, a byte short and a byte more, and which comes first where
// two apply. Each line is a book and the number of its answer, 0 where it is accepted. The numbers in the file `stdout` were
// worked out by hand from docs/SPECIFICATION.md 9.3 and 9.4. All that a book does not state is zero.
#![tactic(auto)]

use spec::{AsEntry, Head, HopField, IsdAsn, Limits, PeerEntry, Refusal, Sizes};
use std::io;

// Room for every book: a byte more than the limit.
const ROOM: usize = Limits::BOOK + 1;

const ENTRY: u16 = AsEntry::SIZE as u16;

const PEER: u16 = PeerEntry::SIZE as u16;

const SEGMENTS: u16 = Limits::SEGMENTS as u16;

const ENTRIES: u16 = Limits::ENTRIES as u16;

const PEERS: u8 = Limits::PEERS as u8;

fn number(verdict: Result<(), Refusal>) -> u64 {
    match verdict {
        Ok(()) => 0,
        Err(r) => u64::from(r.number()),
    }
}

fn say(rt: &impl Print, label: &[u8]) -> io::Result<()> {
    rt.write_all(label)?;
    rt.write_all(b": ")
}

// The answer about the first `length` bytes.
fn answer(rt: &impl Print, book: &[u8], length: usize) -> io::Result<()> {
    if length <= book.len() {
        let n = number(book::verdict(&book[0..length]));
        print!(rt; "{n}")?;
    }
    rt.write_all(b"\n")
}

// The answer about the first `length` bytes of a book of sizes, heads and entries, one after the other, and zeros.
fn case(
    rt: &impl Print,
    sizes: Sizes,
    heads: &[Head],
    entries: &[AsEntry],
    length: usize,
) -> io::Result<()> {
    let mut book = [0u8; ROOM];
    let mut at = builder::put_sizes(&mut book, 0, sizes);
    for head in heads {
        at = builder::put_head(&mut book, at, *head);
    }
    for entry in entries {
        at = builder::put_entry(&mut book, at, *entry);
    }
    answer(rt, &book, length)
}

// ---- sizes alone

// The length of a book with the most segments, of empty bodies, and with one more.
const MOST: usize = Sizes::SIZE + Head::SIZE * Limits::SEGMENTS;

const OVER: usize = MOST + Head::SIZE;

fn sizes(cores: u16, others: u16, bodies: u32) -> Sizes {
    Sizes {
        cores,
        others,
        bodies,
    }
}

fn sized(
    rt: &impl Print,
    label: &[u8],
    cores: u16,
    others: u16,
    bodies: u32,
    length: usize,
) -> io::Result<()> {
    say(rt, label)?;
    case(rt, sizes(cores, others, bodies), &[], &[], length)
}

fn lengths(rt: &impl Print) -> io::Result<()> {
    sized(rt, b"no bytes", 0, 0, 0, 0)?;
    sized(rt, b"7 bytes", 0, 0, 0, Sizes::SIZE - 1)?;
    sized(rt, b"8 bytes", 0, 0, 0, Sizes::SIZE)?;
    sized(rt, b"8 bytes and 1", 0, 0, 0, Sizes::SIZE + 1)
}

// Segments with empty bodies.
fn segments(rt: &impl Print) -> io::Result<()> {
    sized(rt, b"C 64, N 0", SEGMENTS, 0, 0, MOST)?;
    sized(rt, b"C 64, N 0, a byte short", SEGMENTS, 0, 0, MOST - 1)?;
    sized(rt, b"C 64, N 0, a byte more", SEGMENTS, 0, 0, MOST + 1)?;
    sized(rt, b"C 64, N 1", SEGMENTS, 1, 0, OVER)?;
    sized(rt, b"C 63, N 1", SEGMENTS - 1, 1, 0, MOST)?;
    sized(rt, b"C 0, N 64", 0, SEGMENTS, 0, MOST)?;
    sized(rt, b"C 0, N 65", 0, SEGMENTS + 1, 0, OVER)?;
    sized(rt, b"C 65, N 0", SEGMENTS + 1, 0, 0, OVER)?;
    sized(rt, b"C 65, N 0, a byte more", SEGMENTS + 1, 0, 0, OVER + 1)?;
    sized(rt, b"C 256, N 0", 256, 0, 0, Sizes::SIZE)?;
    sized(rt, b"C 64, B 4294967295", SEGMENTS, 0, 4294967295, MOST)
}

// ---- one segment

fn head(entries: u16, body: u16) -> Head {
    Head {
        timestamp: 0,
        id: 0,
        entries,
        body,
    }
}

fn hop() -> HopField {
    HopField {
        units: 0,
        ingress: 0,
        egress: 0,
        mac: [0u8; HopField::MAC],
    }
}

// Of an AS, for which its place is given where no two are to be equal.
fn entry(local: usize, peers: u8) -> AsEntry {
    AsEntry::new(IsdAsn(local as u64), 0, 0, hop(), peers)
}

// What stands before the body of one segment.
const ONE: usize = Sizes::SIZE + Head::SIZE;

// A book of one segment: its head, B, and the peer counts of its first two entries.
fn segment(
    rt: &impl Print,
    h: Head,
    bodies: u16,
    first: u8,
    second: u8,
    length: usize,
) -> io::Result<()> {
    let entries = [entry(ONE, first), entry(ONE + AsEntry::SIZE, second)];
    case(rt, sizes(0, 1, u32::from(bodies)), &[h], &entries, length)
}

// A body as its head states it, in a book of that length; the peers of its first entry.
fn one(rt: &impl Print, label: &[u8], entries: u16, body: u16, peers: u8) -> io::Result<()> {
    say(rt, label)?;
    segment(
        rt,
        head(entries, body),
        body,
        peers,
        0,
        ONE + usize::from(body),
    )
}

// The bytes of two entries, and a book of them.
const TWO: u16 = 2 * ENTRY;

const PAIR: usize = ONE + 2 * AsEntry::SIZE;

// Two entries: the body's length by its head, with B as it should be, and the peers of the second entry.
fn pair(rt: &impl Print, label: &[u8], body: u16, peers: u8, length: usize) -> io::Result<()> {
    say(rt, label)?;
    segment(rt, head(2, body), TWO, 0, peers, length)
}

fn one_segment(core: bool, body: u16) -> Sizes {
    if core {
        return sizes(1, 0, u32::from(body));
    }
    sizes(0, 1, u32::from(body))
}

// A book of one segment, core or not, of so many entries; entry `again` has the AS of entry `first`.
fn in_row(
    rt: &impl Print,
    label: &[u8],
    core: bool,
    count: u8,
    first: u8,
    again: u8,
) -> io::Result<()> {
    let length = ONE + AsEntry::SIZE * usize::from(count);
    let mut book = [0u8; ROOM];
    let body = u16::from(count) * ENTRY;
    let to_head = builder::put_sizes(&mut book, 0, one_segment(core, body));
    let to_first = builder::put_head(&mut book, to_head, head(u16::from(count), body));
    entries(&mut book, to_first, usize::from(count), 0);
    let known = ONE + AsEntry::SIZE * usize::from(first);
    let at = ONE + AsEntry::SIZE * usize::from(again);
    builder::put_entry(&mut book, at, entry(known, 0));
    say(rt, label)?;
    answer(rt, &book, length)
}

// An entry with the most peers.
const FULL: u16 = (AsEntry::SIZE + PeerEntry::SIZE * Limits::PEERS) as u16;

fn bodies(rt: &impl Print) -> io::Result<()> {
    pair(rt, b"2 entries", TWO, 0, PAIR)?;
    pair(rt, b"2 entries, book a byte short", TWO, 0, PAIR - 1)?;
    pair(rt, b"2 entries, book a byte more", TWO, 0, PAIR + 1)?;
    in_row(rt, b"16 entries", false, Limits::ENTRIES as u8, 0, 0)?;
    one(rt, b"17 entries", ENTRIES + 1, (ENTRIES + 1) * ENTRY, 0)?;
    one(rt, b"256 entries", 256, 0, 0)?;
    one(rt, b"no entry", 0, 0, 0)?;
    one(rt, b"no entry, 1 byte", 0, 1, 0)?;
    one(rt, b"1 entry, body a byte short", 1, ENTRY - 1, 0)?;
    one(rt, b"1 entry, body a byte more", 1, ENTRY + 1, 0)
}

fn peers(rt: &impl Print) -> io::Result<()> {
    one(rt, b"4 peers", 1, FULL, PEERS)?;
    one(rt, b"5 peers in the bytes of 4", 1, FULL, PEERS + 1)?;
    one(rt, b"3 peers in the bytes of 4", 1, FULL, PEERS - 1)?;
    one(rt, b"5 peers", 1, FULL + PEER, PEERS + 1)?;
    one(rt, b"4 peers, body a byte short", 1, FULL - 1, PEERS)?;
    one(rt, b"4 peers, body a byte more", 1, FULL + 1, PEERS)?;
    pair(rt, b"5 peers at the second entry", TWO, PEERS + 1, PAIR)?;
    pair(rt, b"body lengths 51, B 52", TWO - 1, 0, PAIR)?;
    pair(rt, b"body lengths 53, B 52", TWO + 1, 0, PAIR)
}

// ---- which answer comes first

// A segment of one entry more than it may have, in a book of another length.
fn long(rt: &impl Print, label: &[u8], length: usize) -> io::Result<()> {
    say(rt, label)?;
    let body = (ENTRIES + 1) * ENTRY;
    segment(rt, head(ENTRIES + 1, body), body, 0, 0, length)
}

fn lengths_first(rt: &impl Print) -> io::Result<()> {
    let short = Sizes::SIZE - 1;
    sized(
        rt,
        b"under 8 bytes before Crowded",
        SEGMENTS + 1,
        0,
        0,
        short,
    )?;
    sized(rt, b"Crowded before Cut", SEGMENTS + 1, 0, 0, Sizes::SIZE)?;
    let fit = ONE + AsEntry::SIZE * (Limits::ENTRIES + 1);
    long(rt, b"Cut before Long", fit - 1)?;
    long(rt, b"Surplus before Long", fit + 1)
}

// A core and a non-core segment of one entry each, of one AS: their heads, and the peers of the entries. B and the book's length fit.
fn two(rt: &impl Print, core: Head, other: Head, first: u8, second: u8) -> io::Result<()> {
    let entries = [entry(0, first), entry(0, second)];
    let sizes = sizes(1, 1, u32::from(TWO));
    case(rt, sizes, &[core, other], &entries, PAIR + Head::SIZE)
}

fn heads_first(rt: &impl Print) -> io::Result<()> {
    say(rt, b"two of 1 entry, of one AS")?;
    two(rt, head(1, ENTRY), head(1, ENTRY), 0, 0)?;
    say(rt, b"Long of the last head before Peers of the first body")?;
    two(rt, head(1, ENTRY), head(ENTRIES + 1, ENTRY), PEERS + 1, 0)?;
    say(rt, b"Long of the last head before Misfit of the sum")?;
    two(
        rt,
        head(1, ENTRY),
        head(ENTRIES + 1, ENTRY - 1),
        PEERS + 1,
        0,
    )?;
    say(rt, b"Misfit of the sum before Peers")?;
    two(rt, head(1, ENTRY), head(1, ENTRY - 1), PEERS + 1, 0)
}

fn bodies_by_position(rt: &impl Print) -> io::Result<()> {
    say(rt, b"Misfit of the first body before Peers of the second")?;
    two(rt, head(2, ENTRY), head(1, ENTRY), 0, PEERS + 1)?;
    say(rt, b"Peers of the first body before Misfit of the second")?;
    two(rt, head(1, ENTRY), head(2, ENTRY), PEERS + 1, 0)?;
    say(rt, b"Peers before Misfit of the peers")?;
    two(rt, head(1, ENTRY), head(1, ENTRY), PEERS + 1, 0)?;
    say(rt, b"Misfit of the peers")?;
    two(rt, head(1, ENTRY), head(1, ENTRY), PEERS, 0)?;
    say(rt, b"Misfit of the entry before Peers")?;
    two(rt, head(1, ENTRY - 1), head(1, ENTRY + 1), PEERS + 1, 0)
}

// ---- one AS twice

fn twice(rt: &impl Print) -> io::Result<()> {
    in_row(rt, b"1 entry", false, 1, 0, 0)?;
    in_row(rt, b"1 entry, core", true, 1, 0, 0)?;
    in_row(rt, b"2 entries of one AS", false, 2, 0, 1)?;
    in_row(rt, b"2 entries of one AS, core", true, 2, 0, 1)?;
    in_row(rt, b"first and last of 3", false, 3, 0, 2)?;
    in_row(rt, b"first and last of 3, core", true, 3, 0, 2)?;
    in_row(rt, b"first and second of 3", false, 3, 0, 1)?;
    in_row(rt, b"second and last of 3", false, 3, 1, 2)?;
    in_row(rt, b"second and third of 4", false, 4, 1, 2)?;
    in_row(rt, b"second and fourth of 5, core", true, 5, 1, 3)?;
    in_row(rt, b"first and last of 16", false, 16, 0, 15)?;
    in_row(rt, b"first and last of 16, core", true, 16, 0, 15)?;
    in_row(rt, b"14th and 15th of 16", false, 16, 13, 14)?;
    in_row(rt, b"16 entries, core", true, 16, 0, 0)
}

// A non-core segment of two entries: their ASes, and the book's length.
fn ases(
    rt: &impl Print,
    label: &[u8],
    first: usize,
    second: usize,
    length: usize,
) -> io::Result<()> {
    say(rt, label)?;
    let entries = [entry(first, 0), entry(second, 0)];
    case(
        rt,
        one_segment(false, TWO),
        &[head(2, TWO)],
        &entries,
        length,
    )
}

// ISD 1, AS ff00:0:110.
const A: usize = 0x0001_ff00_0000_0110;

fn numbers(rt: &impl Print) -> io::Result<()> {
    ases(rt, b"one AS", A, A, PAIR)?;
    ases(
        rt,
        b"one AS number in two ISDs",
        A,
        0x0002_ff00_0000_0110,
        PAIR,
    )?;
    ases(
        rt,
        b"two AS numbers in one ISD",
        A,
        0x0001_ff00_0000_0120,
        PAIR,
    )?;
    ases(rt, b"bit 63 differs", A, 0x8001_ff00_0000_0110, PAIR)?;
    ases(rt, b"bit 48 differs", A, 0x0000_ff00_0000_0110, PAIR)?;
    ases(rt, b"bit 47 differs", A, 0x0001_7f00_0000_0110, PAIR)?;
    ases(rt, b"bit 32 differs", A, 0x0001_ff01_0000_0110, PAIR)?;
    ases(rt, b"bit 31 differs", A, 0x0001_ff00_8000_0110, PAIR)?;
    ases(rt, b"bit 0 differs", A, 0x0001_ff00_0000_0111, PAIR)?;
    ases(rt, b"Cut before Twice", A, A, PAIR - 1)?;
    ases(rt, b"Surplus before Twice", A, A, PAIR + 1)?;
    ases(rt, b"Oversize before Twice", A, A, ROOM)
}

const THREE: u16 = 3 * ENTRY;

// The same of three entries, in a book that fits.
fn three_ases(
    rt: &impl Print,
    label: &[u8],
    first: usize,
    second: usize,
    third: usize,
) -> io::Result<()> {
    say(rt, label)?;
    let entries = [entry(first, 0), entry(second, 0), entry(third, 0)];
    let length = PAIR + AsEntry::SIZE;
    case(
        rt,
        one_segment(false, THREE),
        &[head(3, THREE)],
        &entries,
        length,
    )
}

// Their last bytes are equal.
fn last_bytes(rt: &impl Print) -> io::Result<()> {
    let b = 0x0001_ff00_0000_0210;
    let c = 0x0002_ff00_0000_0110;
    three_ases(rt, b"three ASes", A, b, c)?;
    three_ases(rt, b"the third is the first", A, b, A)?;
    three_ases(rt, b"the third is the second", A, c, c)?;
    three_ases(rt, b"the second is the first", A, A, b)
}

// A core and a non-core segment of three entries together, all of one AS: their heads, and the peers of the entries. B and the book's
// length fit.
fn three(
    rt: &impl Print,
    core: Head,
    other: Head,
    first: u8,
    second: u8,
    third: u8,
) -> io::Result<()> {
    let entries = [entry(0, first), entry(0, second), entry(0, third)];
    let sizes = sizes(1, 1, u32::from(THREE));
    let length = PAIR + AsEntry::SIZE + Head::SIZE;
    case(rt, sizes, &[core, other], &entries, length)
}

fn other_bodies(rt: &impl Print) -> io::Result<()> {
    say(rt, b"Twice of the first body")?;
    three(rt, head(2, TWO), head(1, ENTRY), 0, 0, 0)?;
    say(rt, b"Twice of the second body")?;
    three(rt, head(1, ENTRY), head(2, TWO), 0, 0, 0)?;
    say(rt, b"Twice of the first body before Peers of the second")?;
    three(rt, head(2, TWO), head(1, ENTRY), 0, 0, PEERS + 1)?;
    say(rt, b"Twice of the first body before Misfit of the second")?;
    three(rt, head(2, TWO), head(2, ENTRY), 0, 0, 0)?;
    say(rt, b"Peers of the first body before Twice of the second")?;
    three(rt, head(1, ENTRY), head(2, TWO), PEERS + 1, 0, 0)?;
    say(rt, b"Misfit of the first body before Twice of the second")?;
    three(rt, head(0, ENTRY), head(2, TWO), 0, 0, 0)?;
    say(rt, b"Long of the last head before Twice of the first body")?;
    three(rt, head(2, TWO), head(ENTRIES + 1, ENTRY), 0, 0, 0)?;
    say(rt, b"Misfit of the sum before Twice")?;
    three(rt, head(2, TWO), head(1, ENTRY - 1), 0, 0, 0)
}

fn same_body(rt: &impl Print) -> io::Result<()> {
    say(rt, b"3 entries of one AS")?;
    three(rt, head(3, THREE), head(0, 0), 0, 0, 0)?;
    say(rt, b"Peers of a later entry before Twice")?;
    three(rt, head(3, THREE), head(0, 0), 0, 0, PEERS + 1)?;
    say(rt, b"Misfit of a later entry before Twice")?;
    three(rt, head(3, THREE - 1), head(0, 1), 0, 0, 0)?;
    say(rt, b"Misfit of a later entry's peer before Twice")?;
    three(rt, head(3, THREE), head(0, 0), 0, 0, 1)?;
    say(rt, b"Misfit of the bytes after them before Twice")?;
    three(rt, head(2, THREE), head(0, 0), 0, 0, 0)
}

// ---- the longest book

fn heads(book: &mut [u8], at: usize, count: usize, h: Head) -> usize {
    let mut next = at;
    for _ in 0..count {
        next = builder::put_head(book, next, h);
    }
    next
}

// So many entries of so many peers each.
fn entries(book: &mut [u8], at: usize, count: usize, peers: u8) -> usize {
    let mut next = at;
    for _ in 0..count {
        next = builder::put_entry(book, next, entry(next, peers));
        for _ in 0..peers {
            next = builder::put_peer(book, next, PeerEntry::new(IsdAsn(0), 0, 0, hop()));
        }
    }
    next
}

// 32 segments of the most entries with the most peers, and one of 14 entries with a peer each: as long as a book may be,
// 8 + 33 x 10 + 32 x 16 x (26 + 4 x 23) + 14 x (26 + 23).
fn longest(book: &mut [u8]) {
    let bodies = Limits::BOOK - Sizes::SIZE - 33 * Head::SIZE;
    let to_heads = builder::put_sizes(book, 0, sizes(0, 33, bodies as u32));
    let to_last = heads(book, to_heads, 32, head(ENTRIES, ENTRIES * FULL));
    let to_bodies = builder::put_head(book, to_last, head(14, 14 * (ENTRY + PEER)));
    let to_small = entries(book, to_bodies, 32 * Limits::ENTRIES, PEERS);
    entries(book, to_small, 14, 1);
}

// The last segment's first entry, and its last.
const SMALL: usize = Limits::BOOK - 14 * (AsEntry::SIZE + PeerEntry::SIZE);

const LAST: usize = Limits::BOOK - (AsEntry::SIZE + PeerEntry::SIZE);

fn large(rt: &impl Print) -> io::Result<()> {
    let mut book = [0u8; ROOM];
    longest(&mut book);
    say(rt, b"61440 bytes")?;
    answer(rt, &book, Limits::BOOK)?;
    builder::put_entry(&mut book, LAST, entry(SMALL, 1));
    say(rt, b"61440 bytes, Twice of the last entry")?;
    answer(rt, &book, Limits::BOOK)?;
    say(rt, b"61440 bytes, one taken off")?;
    answer(rt, &book, Limits::BOOK - 1)?;
    say(rt, b"61441 bytes")?;
    answer(rt, &book, ROOM)?;
    sized(rt, b"Oversize before Surplus", 0, 0, 0, ROOM)?;
    sized(rt, b"Oversize before Crowded", SEGMENTS + 1, 0, 0, ROOM)?;
    sized(rt, b"Oversize before Cut", 0, 0, 4294967295, ROOM)
}

fn main(rt: HostRuntime) -> io::Result<()> {
    lengths(&rt)?;
    segments(&rt)?;
    bodies(&rt)?;
    peers(&rt)?;
    lengths_first(&rt)?;
    heads_first(&rt)?;
    bodies_by_position(&rt)?;
    twice(&rt)?;
    numbers(&rt)?;
    last_bytes(&rt)?;
    other_bodies(&rt)?;
    same_body(&rt)?;
    large(&rt)
}
