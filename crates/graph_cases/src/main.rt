// Lists at the limits. Each line is a book and ends, listing's answer as a number, and the first and the last record. The answers and
// records in the file `stdout` were worked out by hand from docs/SPECIFICATION.md 5.5, 8.1 and 9.5. All that is not said of a book is zero.
#![tactic(auto)]

ghost use Rattle.std.specs.Prelude.{◌≤◌};
ghost use Rattle.spec.specs.Limits.{max_slots};

use spec::{AsEntry, Head, HopField, IsdAsn, Limits, PeerEntry, Sizes, Solution};
use std::io;

// Four ASes.
const A: u64 = 0x0001_ff00_0000_0110;

const B: u64 = 0x0001_ff00_0000_0111;

const X: u64 = 0x0001_ff00_0000_0120;

const Y: u64 = 0x0001_ff00_0000_0121;

// The record in slot k.
fn record(rt: &impl Print, out: &[u8], k: usize) -> io::Result<()>
    requires { k ≤ max_slots }
{
    let at = Solution::SIZE * k;
    print!(rt;
        " {:016x}{:016x}",
        octets::be64(out, at),
        octets::be64(out, at + 8)
    )
}

fn show(
    rt: &impl Print,
    label: &[u8],
    src: u64,
    dst: u64,
    book: &[u8],
    out: &mut [u8],
) -> io::Result<()> {
    rt.write_all(label)?;
    rt.write_all(b": ")?;
    match graph::list(IsdAsn(src), IsdAsn(dst), book, out) {
        Ok(n) => {
            print!(rt; "{n}")?;
            if 0 < n && n <= Limits::SLOTS {
                record(rt, out, 0)?;
                record(rt, out, n - 1)?;
            }
        }
        Err(r) => {
            print!(rt; "refused {}", r.number())?;
        }
    }
    rt.write_all(b"\n")
}

// ---- books of segments of two entries

const BODY: usize = 2 * AsEntry::SIZE;

const SEGMENT: usize = Head::SIZE + BODY;

fn put_sizes(book: &mut [u8], cores: u16, others: u16) {
    let sizes = Sizes {
        cores,
        others,
        bodies: (u32::from(cores) + u32::from(others)) * BODY as u32,
    };
    builder::put_sizes(book, 0, sizes);
}

fn entry(local: u64, ingress: u16, egress: u16, peers: u8) -> AsEntry {
    let hop = HopField {
        units: 0,
        ingress,
        egress,
        mac: [0u8; HopField::MAC],
    };
    AsEntry::new(IsdAsn(local), 0, 0, hop, peers)
}

// Segment k of `count`, from one AS to another. Its id is its position, so that no two are equal.
fn segment(book: &mut [u8], count: u8, k: u8, first: u64, last: u64) {
    let head = Head {
        timestamp: 1,
        id: u16::from(k),
        entries: 2,
        body: BODY as u16,
    };
    builder::put_head(book, Sizes::SIZE + Head::SIZE * usize::from(k), head);
    let bodies = Sizes::SIZE + Head::SIZE * usize::from(count);
    let at = bodies + BODY * usize::from(k);
    let next = builder::put_entry(book, at, entry(first, 0, 1, 0));
    builder::put_entry(book, next, entry(last, 2, 0, 0));
}

// The segments from k up to `end`, all between the same ASes.
fn segments(book: &mut [u8], count: u8, k: u8, end: u8, first: u64, last: u64) {
    for i in k..end {
        segment(book, count, i, first, last);
    }
}

// 16 cores from X to Y, 16 segments from X to A, 16 from Y to B: 16 x 16 x 16 chains from A to B, as many as there are slots.
fn crossings(book: &mut [u8], count: u8) {
    segments(book, count, 0, 16, X, Y);
    segments(book, count, 16, 32, X, A);
    segments(book, count, 32, 48, Y, B);
}

fn crossed(rt: &impl Print, out: &mut [u8]) -> io::Result<()> {
    let mut book = [0u8; Sizes::SIZE + 48 * SEGMENT];
    put_sizes(&mut book, 16, 32);
    crossings(&mut book, 48);
    show(rt, b"4096 chains", A, B, &book, out)?;
    show(rt, b"no segment names the ends", 1, 2, &book, out)?;
    show(rt, b"source and destination equal", A, A, &book, out)
}

// One chain more, of one edge.
fn overfull(rt: &impl Print, out: &mut [u8]) -> io::Result<()> {
    let mut book = [0u8; Sizes::SIZE + 49 * SEGMENT];
    put_sizes(&mut book, 16, 33);
    crossings(&mut book, 49);
    segment(&mut book, 49, 48, B, A);
    show(rt, b"4097 chains", A, B, &book, out)
}

const MOST: u8 = Limits::SEGMENTS as u8;

fn crowd(rt: &impl Print, out: &mut [u8]) -> io::Result<()> {
    let mut book = [0u8; Sizes::SIZE + Limits::SEGMENTS * SEGMENT];
    put_sizes(&mut book, 0, MOST as u16);
    segments(&mut book, MOST, 0, MOST, B, A);
    show(rt, b"64 segments", A, B, &book, out)
}

fn slots(rt: &impl Print, out: &mut [u8]) -> io::Result<()> {
    let mut book = [0u8; Sizes::SIZE + SEGMENT];
    put_sizes(&mut book, 0, 1);
    segment(&mut book, 1, 0, B, A);
    let mut few = [0u8; Solution::SIZE - 1];
    show(rt, b"one solution, no slot", A, B, &book, &mut few)?;
    let mut one = [0u8; Solution::SIZE];
    show(rt, b"one solution, one slot", A, B, &book, &mut one)?;
    show(rt, b"in construction direction", B, A, &book, out)?;
    show(rt, b"no segment", A, B, &book[..0], out)
}

// A segment of two entries of one AS, beside one that has a solution.
fn twice(rt: &impl Print, out: &mut [u8]) -> io::Result<()> {
    let mut book = [0u8; Sizes::SIZE + 2 * SEGMENT];
    put_sizes(&mut book, 0, 2);
    segment(&mut book, 2, 0, B, A);
    segment(&mut book, 2, 1, X, X);
    let mut few = [0u8; Solution::SIZE - 1];
    show(
        rt,
        b"one AS twice in a segment, no slot",
        A,
        B,
        &book,
        &mut few,
    )?;
    show(rt, b"one AS twice in a segment", A, B, &book, out)?;
    show(rt, b"and ends that are equal", A, A, &book, out)?;
    segment(&mut book, 2, 1, X, Y);
    show(rt, b"two ASes in that segment", A, B, &book, out)
}

// A core of two entries of one AS.
fn core_twice(rt: &impl Print, out: &mut [u8]) -> io::Result<()> {
    let mut book = [0u8; Sizes::SIZE + 2 * SEGMENT];
    put_sizes(&mut book, 1, 1);
    segment(&mut book, 2, 0, X, X);
    segment(&mut book, 2, 1, B, A);
    show(rt, b"one AS twice in a core", A, B, &book, out)
}

// ---- one segment of the most entries, each with the most peers

const FULL: usize = AsEntry::SIZE + PeerEntry::SIZE * Limits::PEERS;

const FULL_BODY: usize = FULL * Limits::ENTRIES;

// Its ASes are X, X + 1, ...
fn longest(book: &mut [u8]) {
    let sizes = Sizes {
        cores: 0,
        others: 1,
        bodies: FULL_BODY as u32,
    };
    let head = Head {
        timestamp: 0,
        id: 0,
        entries: Limits::ENTRIES as u16,
        body: FULL_BODY as u16,
    };
    let to_head = builder::put_sizes(book, 0, sizes);
    builder::put_head(book, to_head, head);
    for i in 0..Limits::ENTRIES {
        let at = Sizes::SIZE + Head::SIZE + FULL * i;
        let local = X + i as u64;
        builder::put_entry(book, at, entry(local, 0, 0, Limits::PEERS as u8));
    }
}

fn long(rt: &impl Print, out: &mut [u8]) -> io::Result<()> {
    let mut book = [0u8; Sizes::SIZE + Head::SIZE + FULL_BODY];
    longest(&mut book);
    let leaf = X + Limits::ENTRIES as u64 - 1;
    show(rt, b"16 entries of 4 peers", leaf, X, &book, out)?;
    show(
        rt,
        b"and to the entry below the leaf",
        leaf,
        leaf - 1,
        &book,
        out,
    )
}

fn empty(rt: &impl Print, out: &mut [u8]) -> io::Result<()> {
    show(rt, b"8 zero bytes", A, B, &[0u8; Sizes::SIZE], out)
}

fn main(rt: HostRuntime) -> io::Result<()> {
    let mut out = [0xffu8; Limits::SLOTS * Solution::SIZE];
    empty(&rt, &mut out)?;
    slots(&rt, &mut out)?;
    twice(&rt, &mut out)?;
    core_twice(&rt, &mut out)?;
    crossed(&rt, &mut out)?;
    overfull(&rt, &mut out)?;
    crowd(&rt, &mut out)?;
    long(&rt, &mut out)
}
