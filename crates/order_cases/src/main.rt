// Small buffers, sorted: a line for each record, the bytes after the last whole one not shown, and an
// empty line after each buffer; then the digests of four long buffers. `stdout` has what `expected.py`
// writes, which has the same book and records, and sorts by a key of its own, with SHA-256 from Python's
// hashlib. The keys that decide in `by_keys`, `by_positions` and `in_part` were worked out by hand too.
// Then pairs of records, compared.
#![tactic(auto)]

mod compared;

use spec::{AsEntry, Head, HopField, IsdAsn, Limits, Sizes, Solution, SolutionEdge};
use std::io;

// ---- the book

const BOOK: usize = Sizes::SIZE + 6 * (Head::SIZE + AsEntry::SIZE);

fn head(timestamp: u32) -> Head {
    Head {
        timestamp,
        id: 0x1234,
        entries: 1,
        body: AsEntry::SIZE as u16,
    }
}

fn entry(n: u8) -> AsEntry {
    let hop = HopField {
        units: 63,
        ingress: 0,
        egress: u16::from(n),
        mac: [10, 0, 0, 0, 0, n],
    };
    AsEntry::new(
        IsdAsn(0x0001_ff00_0000_0110 + u64::from(n)),
        1500,
        0,
        hop,
        0,
    )
}

// Six segments of one entry. The entries at positions 1 and 4 are the same, the timestamps are not: one
// fingerprint at two positions.
fn book() -> [u8; BOOK] {
    let mut b = [0u8; BOOK];
    let sizes = Sizes {
        cores: 0,
        others: 6,
        bodies: 6 * AsEntry::SIZE as u32,
    };
    let mut at = builder::put_sizes(&mut b, 0, sizes);
    for k in 0..6 {
        at = builder::put_head(&mut b, at, head(1000000 + k));
    }
    for n in [0, 1, 2, 3, 1, 5] {
        at = builder::put_entry(&mut b, at, entry(n));
    }
    b
}

// ---- records

// An edge against construction direction, and one in it: position, shortcut, and peer.
fn up(position: u8, shortcut: u8, peer: u8) -> SolutionEdge {
    SolutionEdge {
        position,
        shortcut,
        peer,
        construction: false,
    }
}

fn down(position: u8, shortcut: u8, peer: u8) -> SolutionEdge {
    SolutionEdge {
        position,
        shortcut,
        peer,
        construction: true,
    }
}

fn one(s: &mut [u8], at: usize, cost: u16, e: SolutionEdge) -> usize {
    builder::put_solution(s, at, Solution::new(cost, 1, [e, up(0, 0, 0), up(0, 0, 0)]))
}

fn two(s: &mut [u8], at: usize, cost: u16, e: SolutionEdge, f: SolutionEdge) -> usize {
    builder::put_solution(s, at, Solution::new(cost, 2, [e, f, up(0, 0, 0)]))
}

// ---- sorted

// A line for each record.
fn show(rt: &impl Print, s: &[u8]) -> io::Result<()> {
    for q in 0..s.len() / Solution::SIZE {
        let at = Solution::SIZE * q;
        println!(rt;
            "{:016x}{:016x}",
            octets::be64(s, at),
            octets::be64(s, at + 8)
        )?;
    }
    rt.write_all(b"\n")
}

// Cost, also where its second byte is the smaller; count; peers of both edges, the smaller first;
// shortcuts, the larger first.
fn by_keys(rt: &impl Print) -> io::Result<()> {
    let mut s = [0u8; 10 * Solution::SIZE];
    let mut at = one(&mut s, 0, 300, down(0, 2, 0));
    at = two(&mut s, at, 5, up(0, 0, 0), down(1, 0, 0));
    at = one(&mut s, at, 5, down(0, 0, 1));
    at = one(&mut s, at, 5, down(0, 0, 0));
    at = one(&mut s, at, 5, down(0, 3, 0));
    at = one(&mut s, at, 255, down(0, 0, 0));
    at = one(&mut s, at, 256, down(0, 0, 0));
    at = two(&mut s, at, 5, up(0, 0, 0), down(1, 0, 2));
    at = two(&mut s, at, 5, up(0, 0, 0), down(1, 7, 2));
    two(&mut s, at, 5, up(0, 0, 1), down(1, 0, 0));
    order::sort(&book(), &mut s, 10);
    show(rt, &s)
}

// Positions of two edges, and the peer of the second.
fn pair(s: &mut [u8], at: usize, first: u8, second: u8, peer: u8) -> usize {
    two(s, at, 4, up(first, 1, 0), down(second, 0, peer))
}

// Positions alone differ, or a peer after them: the fingerprints decide.
fn by_fingerprints(rt: &impl Print) -> io::Result<()> {
    let mut s = [0u8; 12 * Solution::SIZE];
    let mut at = pair(&mut s, 0, 5, 2, 0);
    at = pair(&mut s, at, 4, 2, 0);
    at = pair(&mut s, at, 3, 2, 0);
    at = pair(&mut s, at, 2, 2, 0);
    at = pair(&mut s, at, 1, 2, 0);
    at = pair(&mut s, at, 0, 2, 0);
    at = pair(&mut s, at, 0, 0, 0);
    at = pair(&mut s, at, 0, 1, 0);
    at = pair(&mut s, at, 0, 3, 0);
    at = pair(&mut s, at, 0, 5, 0);
    at = pair(&mut s, at, 3, 2, 1);
    pair(&mut s, at, 2, 2, 1);
    order::sort(&book(), &mut s, 12);
    show(rt, &s)
}

// Positions of three edges, and the shortcut of the third.
fn triple(s: &mut [u8], at: usize, a: u8, b: u8, c: u8, shortcut: u8) -> usize {
    let edges = [up(a, 0, 0), down(b, 0, 0), down(c, shortcut, 0)];
    builder::put_solution(s, at, Solution::new(7, 3, edges))
}

// Positions of one fingerprint in each edge: these decide last, after the third edge's shortcut. At 200
// and 250 the book has no segment, and both have the fingerprint of nothing.
fn by_positions(rt: &impl Print) -> io::Result<()> {
    let mut s = [0u8; 7 * Solution::SIZE];
    let mut at = triple(&mut s, 0, 4, 1, 1, 2);
    at = triple(&mut s, at, 1, 4, 4, 2);
    at = triple(&mut s, at, 1, 4, 1, 2);
    at = triple(&mut s, at, 1, 1, 4, 2);
    at = triple(&mut s, at, 4, 1, 1, 3);
    at = triple(&mut s, at, 250, 1, 1, 2);
    triple(&mut s, at, 200, 1, 1, 2);
    order::sort(&book(), &mut s, 7);
    show(rt, &s)
}

// Three records and five bytes.
const PART: usize = 3 * Solution::SIZE + 5;

// The first n records: more than the buffer has, none, one, and two.
fn in_part(rt: &impl Print, n: usize) -> io::Result<()> {
    let mut s = [0u8; PART];
    let mut at = one(&mut s, 0, 9, down(0, 0, 0));
    at = one(&mut s, at, 8, down(0, 0, 0));
    one(&mut s, at, 7, down(0, 0, 0));
    s[PART - 1] = 9;
    order::sort(&book(), &mut s, n);
    show(rt, &s)
}

// Numbers with no order in them, for the bytes of records.
fn spread(i: usize) -> usize {
    (i % 4096 * 7919 + i / Solution::SIZE % 8192 * 104729) / 61
}

// Bytes 0 to 2.
fn mixed(i: usize) -> u8 {
    (spread(i) % 3) as u8
}

// The same, as records that a key can be made of: zero is 0, and a direction 0 or 1.
fn plain(i: usize) -> u8 {
    let b = mixed(i);
    if i % Solution::SIZE == Solution::COUNT + 1 {
        return 0;
    }
    if i % SolutionEdge::SIZE == SolutionEdge::DIRECTION {
        return b % 2;
    }
    b
}

// Mostly 0.
fn rare(x: usize) -> u8 {
    u8::from(x % 16 == 0)
}

// Mostly one of the two positions with one fingerprint, else any of the book or one of two past it.
fn position(x: usize) -> u8 {
    match x % 16 {
        0..=2 | 8..=10 => 1,
        3..=5 | 11..=13 => 4,
        6 => 200,
        14 => 250,
        _ => (x / 8 % 6) as u8,
    }
}

// Records that are equal in many keys. What no key reads, zero and the directions, is any byte.
fn tied(i: usize) -> u8 {
    let x = spread(i);
    let place = i % SolutionEdge::SIZE;
    if place == SolutionEdge::DIRECTION {
        return mixed(i);
    }
    if i % Solution::SIZE < Solution::HEAD {
        return rare(x);
    }
    if place == 0 {
        return position(x);
    }
    rare(x)
}

// How the bytes of records are made.
#[derive(Clone, Copy)]
enum Kind {
    Mixed,
    Plain,
    Tied,
}

fn byte_at(i: usize, kind: Kind) -> u8 {
    match kind {
        Kind::Mixed => mixed(i),
        Kind::Plain => plain(i),
        Kind::Tied => tied(i),
    }
}

fn fill(s: &mut [u8], kind: Kind) {
    for i in 0..s.len() {
        s[i] = byte_at(i, kind);
    }
}

fn show_digest(rt: &impl Print, s: &[u8]) -> io::Result<()> {
    let d = sha256::sha256(s);
    println!(rt;
        "{:016x}{:016x}{:016x}{:016x}",
        octets::be64(&d, 0),
        octets::be64(&d, 8),
        octets::be64(&d, 16),
        octets::be64(&d, 24)
    )
}

// 300 records.
fn long(rt: &impl Print) -> io::Result<()> {
    let mut s = [0u8; 300 * Solution::SIZE];
    fill(&mut s, Kind::Mixed);
    order::sort(&book(), &mut s, 300);
    show_digest(rt, &s)
}

// 4,100 records, of which 4,096 are sorted.
fn longest(rt: &impl Print) -> io::Result<()> {
    let mut s = [0u8; (Limits::SLOTS + 4) * Solution::SIZE];
    fill(&mut s, Kind::Mixed);
    order::sort(&book(), &mut s, 5000);
    show_digest(rt, &s)
}

// 700 records, which are sorted as keys; and with one among them of which no key can be made.
fn long_plain(rt: &impl Print) -> io::Result<()> {
    let mut s = [0u8; 700 * Solution::SIZE];
    fill(&mut s, Kind::Plain);
    order::sort(&book(), &mut s, 700);
    show_digest(rt, &s)
}

fn long_but_one(rt: &impl Print) -> io::Result<()> {
    let mut s = [0u8; 700 * Solution::SIZE];
    fill(&mut s, Kind::Plain);
    s[Solution::HEAD + SolutionEdge::DIRECTION] = 2;
    order::sort(&book(), &mut s, 700);
    show_digest(rt, &s)
}

fn main(rt: HostRuntime) -> io::Result<()> {
    by_keys(&rt)?;
    by_fingerprints(&rt)?;
    by_positions(&rt)?;
    in_part(&rt, 100)?;
    in_part(&rt, 0)?;
    in_part(&rt, 1)?;
    in_part(&rt, 2)?;
    long(&rt)?;
    longest(&rt)?;
    long_plain(&rt)?;
    long_but_one(&rt)?;
    compared::show(&rt)
}
