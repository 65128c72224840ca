// Pairs of records, compared both ways round: a line for each with the order and how many fingerprints were worked out. Then every pair of
// sixty records: how often each answer comes, and a digest of them all. `expected.py` has the answers of the lines, worked out by hand,
// beside the same records. By their fingerprints the positions of the book stand so: 1 and 4, which are equal, 3, 2, 5, 0.
use crate::{BOOK, Kind, book, fill, show_digest, up};
use order::Comparison;
use spec::{AsEntry, Solution, SolutionEdge};
use std::cmp::Ordering;
use std::io;

// ---- records

// Three edges, by their positions, shortcuts and peers.
fn record(
    cost: u16,
    count: u8,
    positions: [u8; 3],
    shortcuts: [u8; 3],
    peers: [u8; 3],
) -> [u8; Solution::SIZE] {
    let e = up(positions[0], shortcuts[0], peers[0]);
    let f = up(positions[1], shortcuts[1], peers[1]);
    let g = up(positions[2], shortcuts[2], peers[2]);
    let mut s = [0u8; Solution::SIZE];
    builder::put_solution(&mut s, 0, Solution::new(cost, count, [e, f, g]));
    s
}

// No shortcuts and no peers.
fn counted(cost: u16, count: u8, positions: [u8; 3]) -> [u8; Solution::SIZE] {
    record(cost, count, positions, [0, 0, 0], [0, 0, 0])
}

fn keyed(positions: [u8; 3], shortcuts: [u8; 3], peers: [u8; 3]) -> [u8; Solution::SIZE] {
    record(7, 3, positions, shortcuts, peers)
}

fn at(positions: [u8; 3]) -> [u8; Solution::SIZE] {
    counted(7, 3, positions)
}

// ---- lines

fn word(o: Ordering) -> &'static str {
    match o {
        Ordering::Less => "before",
        Ordering::Equal => "same",
        Ordering::Greater => "after",
    }
}

// Book and records of any bytes.
fn any(rt: &impl Print, name: &str, given: &[u8], a: &[u8], b: &[u8]) -> io::Result<()> {
    let c = order::compare_solutions(given, a, b);
    let d = order::compare_solutions(given, b, a);
    println!(rt;
        "{name}: {} {}, exchanged {} {}",
        word(c.order),
        c.digests,
        word(d.order),
        d.digests
    )
}

fn case(
    rt: &impl Print,
    name: &str,
    a: [u8; Solution::SIZE],
    b: [u8; Solution::SIZE],
) -> io::Result<()> {
    any(rt, name, &book(), &a, &b)
}

// ---- by hand

// Every edge is at two positions, and a fingerprint would decide otherwise.
fn heads(rt: &impl Print) -> io::Result<()> {
    case(
        rt,
        "cost",
        counted(6, 3, [2, 2, 2]),
        counted(7, 3, [3, 3, 3]),
    )?;
    case(
        rt,
        "cost, its first byte",
        counted(255, 3, [2, 2, 2]),
        counted(256, 3, [3, 3, 3]),
    )?;
    case(
        rt,
        "edge count",
        counted(7, 2, [2, 2, 2]),
        counted(7, 3, [3, 3, 3]),
    )
}

// The edges after the one that decides are at two positions too.
fn first_edge(rt: &impl Print) -> io::Result<()> {
    case(
        rt,
        "first edge, peer",
        keyed([2, 2, 2], [0, 0, 0], [0, 0, 0]),
        keyed([3, 3, 3], [5, 0, 0], [1, 0, 0]),
    )?;
    case(
        rt,
        "first edge, shortcut",
        keyed([2, 2, 2], [5, 0, 0], [1, 0, 0]),
        keyed([3, 3, 3], [4, 0, 0], [1, 0, 0]),
    )?;
    case(
        rt,
        "first edge, two positions",
        keyed([3, 2, 2], [4, 0, 0], [1, 0, 0]),
        keyed([2, 3, 3], [4, 0, 0], [1, 0, 0]),
    )
}

fn second_edge(rt: &impl Print) -> io::Result<()> {
    case(
        rt,
        "second edge, peer",
        keyed([5, 2, 2], [0, 0, 0], [0, 0, 0]),
        keyed([5, 3, 3], [0, 5, 0], [0, 1, 0]),
    )?;
    case(
        rt,
        "second edge, shortcut",
        keyed([5, 2, 2], [0, 5, 0], [0, 1, 0]),
        keyed([5, 3, 3], [0, 4, 0], [0, 1, 0]),
    )?;
    case(
        rt,
        "second edge, two positions",
        keyed([5, 3, 2], [0, 4, 0], [0, 1, 0]),
        keyed([5, 2, 3], [0, 4, 0], [0, 1, 0]),
    )
}

fn third_edge(rt: &impl Print) -> io::Result<()> {
    case(
        rt,
        "third edge, peer",
        keyed([5, 0, 2], [0, 0, 0], [0, 0, 0]),
        keyed([5, 0, 3], [0, 0, 5], [0, 0, 1]),
    )?;
    case(
        rt,
        "third edge, shortcut",
        keyed([5, 0, 2], [0, 0, 5], [0, 0, 1]),
        keyed([5, 0, 3], [0, 0, 4], [0, 0, 1]),
    )?;
    case(
        rt,
        "third edge, two positions",
        keyed([5, 0, 3], [0, 0, 4], [0, 0, 1]),
        keyed([5, 0, 2], [0, 0, 4], [0, 0, 1]),
    )?;
    case(
        rt,
        "one position at every edge",
        at([5, 3, 2]),
        at([5, 3, 2]),
    )
}

// Where the second and the third edge start.
const SECOND: usize = Solution::HEAD + SolutionEdge::SIZE;

const THIRD: usize = SECOND + SolutionEdge::SIZE;

// What is no key: directions and the zero byte.
fn no_keys(rt: &impl Print) -> io::Result<()> {
    let a = at([5, 3, 2]);
    let mut b = a;
    b[Solution::COUNT + 1] = 9;
    b[Solution::HEAD + SolutionEdge::DIRECTION] = 1;
    b[SECOND + SolutionEdge::DIRECTION] = 1;
    b[THIRD + SolutionEdge::DIRECTION] = 1;
    case(rt, "directions and the zero byte", a, b)
}

// Positions 4 and 1 have one fingerprint: what follows decides, and the positions would decide otherwise.
fn after_one(rt: &impl Print) -> io::Result<()> {
    case(
        rt,
        "a reissue, then the second edge's peer",
        keyed([4, 2, 2], [0, 0, 0], [0, 0, 0]),
        keyed([1, 3, 3], [0, 5, 0], [0, 1, 0]),
    )?;
    case(
        rt,
        "a reissue, then the second edge's shortcut",
        keyed([4, 2, 2], [0, 5, 0], [0, 1, 0]),
        keyed([1, 3, 3], [0, 4, 0], [0, 1, 0]),
    )?;
    case(
        rt,
        "a reissue, then the second edge at two positions",
        keyed([4, 3, 2], [0, 4, 0], [0, 1, 0]),
        keyed([1, 2, 3], [0, 4, 0], [0, 1, 0]),
    )
}

fn after_one_and_another(rt: &impl Print) -> io::Result<()> {
    case(
        rt,
        "a reissue, one position, then the third edge's peer",
        keyed([4, 5, 2], [0, 0, 0], [0, 0, 0]),
        keyed([1, 5, 3], [0, 0, 5], [0, 0, 1]),
    )?;
    case(
        rt,
        "a reissue, one position, then the third edge's shortcut",
        keyed([4, 5, 2], [0, 0, 5], [0, 0, 1]),
        keyed([1, 5, 3], [0, 0, 4], [0, 0, 1]),
    )?;
    case(
        rt,
        "a reissue, one position, then the third edge at two positions",
        at([4, 5, 3]),
        at([1, 5, 2]),
    )
}

fn after_the_second(rt: &impl Print) -> io::Result<()> {
    case(
        rt,
        "one position, a reissue, then the third edge's peer",
        keyed([5, 4, 2], [0, 0, 0], [0, 0, 0]),
        keyed([5, 1, 3], [0, 0, 5], [0, 0, 1]),
    )?;
    case(
        rt,
        "one position, a reissue, then the third edge at two positions",
        at([5, 4, 3]),
        at([5, 1, 2]),
    )
}

fn after_two(rt: &impl Print) -> io::Result<()> {
    case(
        rt,
        "two reissues, then the third edge's peer",
        keyed([4, 4, 2], [0, 0, 0], [0, 0, 0]),
        keyed([1, 1, 3], [0, 0, 5], [0, 0, 1]),
    )?;
    case(
        rt,
        "two reissues, then the third edge's shortcut",
        keyed([4, 4, 2], [0, 0, 5], [0, 0, 1]),
        keyed([1, 1, 3], [0, 0, 4], [0, 0, 1]),
    )?;
    case(
        rt,
        "two reissues, then the third edge at two positions",
        at([4, 4, 3]),
        at([1, 1, 2]),
    )
}

// All fingerprints are equal.
fn by_positions(rt: &impl Print) -> io::Result<()> {
    case(rt, "a reissue first", at([1, 5, 3]), at([4, 5, 3]))?;
    case(rt, "a reissue second", at([5, 1, 3]), at([5, 4, 3]))?;
    case(rt, "a reissue third", at([5, 3, 1]), at([5, 3, 4]))?;
    case(
        rt,
        "reissues first and second, crossed",
        at([1, 4, 3]),
        at([4, 1, 3]),
    )?;
    case(rt, "reissues first and third", at([1, 5, 4]), at([4, 5, 1]))?;
    case(
        rt,
        "reissues second and third",
        at([5, 1, 4]),
        at([5, 4, 1]),
    )?;
    case(rt, "three reissues", at([1, 1, 1]), at([4, 4, 4]))?;
    case(rt, "three reissues, crossed", at([1, 4, 4]), at([4, 1, 1]))
}

// Edges are compared whatever the count says.
fn past_the_count(rt: &impl Print) -> io::Result<()> {
    case(
        rt,
        "no edge counted, the first at two positions",
        counted(7, 0, [3, 5, 5]),
        counted(7, 0, [2, 5, 5]),
    )?;
    case(
        rt,
        "one edge counted, the second at two positions",
        counted(7, 1, [5, 3, 5]),
        counted(7, 1, [5, 2, 5]),
    )?;
    case(
        rt,
        "two edges counted, the third at two positions",
        counted(7, 2, [5, 5, 3]),
        counted(7, 2, [5, 5, 2]),
    )?;
    case(
        rt,
        "255 edges counted, three reissues",
        counted(7, 255, [1, 1, 1]),
        counted(7, 255, [4, 4, 4]),
    )
}

// At 200 and 250 the book has no segment: both have the fingerprint of nothing.
fn past_the_book(rt: &impl Print) -> io::Result<()> {
    case(rt, "a segment and none", at([1, 5, 5]), at([200, 5, 5]))?;
    case(
        rt,
        "none and none, then the second edge at two positions",
        at([250, 3, 5]),
        at([200, 2, 5]),
    )?;
    case(
        rt,
        "none and none at every edge",
        at([200, 200, 200]),
        at([250, 250, 250]),
    )
}

fn by_hand(rt: &impl Print) -> io::Result<()> {
    heads(rt)?;
    first_edge(rt)?;
    second_edge(rt)?;
    third_edge(rt)?;
    no_keys(rt)?;
    after_one(rt)?;
    after_one_and_another(rt)?;
    after_the_second(rt)?;
    after_two(rt)?;
    by_positions(rt)?;
    past_the_count(rt)?;
    past_the_book(rt)
}

// ---- cut short

// The first n bytes, or all.
fn first(s: &[u8], n: usize) -> &[u8] {
    &s[0..n.min(s.len())]
}

// Of the book and of each record the first so many bytes.
fn cut(
    rt: &impl Print,
    name: &str,
    size: usize,
    a: [u8; Solution::SIZE],
    a_size: usize,
    b: [u8; Solution::SIZE],
    b_size: usize,
) -> io::Result<()> {
    any(
        rt,
        name,
        first(&book(), size),
        first(&a, a_size),
        first(&b, b_size),
    )
}

// A book's sizes and heads; and all up to within the egress of the last entry.
const HEADS: usize = BOOK - 6 * AsEntry::SIZE;

const IN_EGRESS: usize = BOOK - AsEntry::SIZE + AsEntry::EGRESS + 1;

fn short_books(rt: &impl Print) -> io::Result<()> {
    cut(
        rt,
        "no book, three edges at two positions",
        0,
        at([0, 1, 2]),
        Solution::SIZE,
        at([3, 4, 5]),
        Solution::SIZE,
    )?;
    cut(
        rt,
        "no bodies, the first edge at two positions",
        HEADS,
        at([3, 5, 5]),
        Solution::SIZE,
        at([2, 5, 5]),
        Solution::SIZE,
    )?;
    cut(
        rt,
        "the last egress cut, the first edge at two positions",
        IN_EGRESS,
        at([5, 3, 3]),
        Solution::SIZE,
        at([2, 3, 3]),
        Solution::SIZE,
    )
}

fn short_records(rt: &impl Print) -> io::Result<()> {
    let x = at([3, 3, 3]);
    let y = at([2, 2, 2]);
    let zeros = counted(0, 0, [0, 0, 0]);
    cut(rt, "no record and none", BOOK, x, 0, y, 0)?;
    cut(rt, "no record and zeros", BOOK, x, 0, zeros, Solution::SIZE)?;
    cut(rt, "no record and one", BOOK, y, 0, x, Solution::SIZE)?;
    cut(rt, "no edges", BOOK, x, Solution::HEAD, y, Solution::HEAD)?;
    cut(
        rt,
        "no edges but the first position",
        BOOK,
        x,
        Solution::HEAD + 1,
        y,
        Solution::HEAD + 1,
    )?;
    cut(rt, "one edge and three", BOOK, x, SECOND, x, Solution::SIZE)?;
    cut(rt, "two edges and three", BOOK, x, THIRD, x, Solution::SIZE)
}

fn long_records(rt: &impl Print) -> io::Result<()> {
    let b = book();
    let mut x = [0u8; Solution::SIZE + 4];
    let mut y = [0u8; Solution::SIZE + 4];
    x[Solution::SIZE] = 1;
    y[Solution::SIZE] = 2;
    any(rt, "bytes after the record", &b, &x, &y)
}

// ---- every pair of sixty

const RECORDS: usize = 60;

const PAIRS: usize = RECORDS * RECORDS;

// Record k, or all where there is none.
fn record_at(s: &[u8], k: usize) -> &[u8] {
    if k < s.len() / Solution::SIZE {
        let at = Solution::SIZE * k;
        return &s[at..at + Solution::SIZE];
    }
    s
}

fn put_answers(given: &[u8], s: &[u8], answers: &mut [Comparison; PAIRS]) {
    for k in 0..PAIRS {
        answers[k] = order::compare_solutions(
            given,
            record_at(s, k / RECORDS),
            record_at(s, k % RECORDS),
        );
    }
}

// At how many pairs one record stands so to the other.
fn say_order(rt: &impl Print, answers: &[Comparison], o: Ordering) -> io::Result<()> {
    let n = answers.iter().filter(|c| c.order == o).count();
    println!(rt; "{}: {n}", word(o))
}

// At how many so many fingerprints were worked out.
fn say_digests(rt: &impl Print, answers: &[Comparison], name: &str, digests: u8) -> io::Result<()> {
    let n = answers.iter().filter(|c| c.digests == digests).count();
    println!(rt; "{name}: {n}")
}

// Of each pair the order as a number, and the count.
fn show_answers(rt: &impl Print, answers: &[Comparison; PAIRS]) -> io::Result<()> {
    let mut r = [0u8; 2 * PAIRS];
    for k in 0..PAIRS {
        r[2 * k] = match answers[k].order {
            Ordering::Less => 0,
            Ordering::Equal => 1,
            Ordering::Greater => 2,
        };
        r[2 * k + 1] = answers[k].digests;
    }
    show_digest(rt, &r)
}

fn every_pair(rt: &impl Print) -> io::Result<()> {
    let mut s = [0u8; RECORDS * Solution::SIZE];
    fill(&mut s, Kind::Tied);
    let none = Comparison {
        order: Ordering::Equal,
        digests: 0,
    };
    let mut answers = [none; PAIRS];
    put_answers(&book(), &s, &mut answers);
    say_order(rt, &answers, Ordering::Less)?;
    say_order(rt, &answers, Ordering::Equal)?;
    say_order(rt, &answers, Ordering::Greater)?;
    say_digests(rt, &answers, "no fingerprint", 0)?;
    say_digests(rt, &answers, "two fingerprints", 2)?;
    say_digests(rt, &answers, "four fingerprints", 4)?;
    say_digests(rt, &answers, "six fingerprints", 6)?;
    show_answers(rt, &answers)
}

pub(crate) fn show(rt: &impl Print) -> io::Result<()> {
    by_hand(rt)?;
    short_books(rt)?;
    short_records(rt)?;
    long_records(rt)?;
    every_pair(rt)
}
