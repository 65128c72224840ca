// Replays stored answers through the functions that the C host calls, and compares every byte of their outputs; and stored
// comparisons of two records, which no C host can ask for. What it reads is tests/stored/join.py's file (tests/stored/README.md):
// labels and cases. Each label has a line with the number of its cases and of those that differ.
#![tactic(auto)]

use spec::{Limits, Path, Solution};
use std::cmp::Ordering;
use std::io;
use std::io::Read;

// The input breaks off, or is no stored answers.
#[derive(Clone, Copy)]
struct Malformed;

// What a case is of: the file of tests/stored that it is from.
#[derive(Clone, Copy)]
enum Kind {
    Answers,
    Refusals,
    Routes,
    Wire,
    Comparisons,
}

// What the input goes on with.
#[derive(Clone, Copy)]
enum Item {
    Label,
    Case(Kind),
    End,
    Malformed,
}

// More labels, or more cases of one label, are no stored answers.
const MOST: u64 = 1000000;

// The bytes of an AS, and of source and destination, which stand before a case's book.
const AS: usize = 8;

const ENDS: usize = 2 * AS;

// The longest record that is given.
const RECORD: usize = 32;

const REFUSED: u32 = 65536;

// ---- reading

// Reads n bytes to the start of buf.
fn take<'a>(rt: &impl Input, buf: &'a mut [u8], n: usize) -> Result<&'a [u8], Malformed> {
    if buf.len() < n {
        return Err(Malformed);
    }
    let front = &mut buf[0..n];
    if rt.reader().read_exact(front).is_err() {
        return Err(Malformed);
    }
    Ok(front)
}

fn bytes<const N: usize>(rt: &impl Input) -> Result<[u8; N], Malformed> {
    let mut b = [0u8; N];
    take(rt, &mut b, N)?;
    Ok(b)
}

fn read8(rt: &impl Input) -> Result<u8, Malformed> {
    Ok(u8::from_be_bytes(bytes(rt)?))
}

fn read16(rt: &impl Input) -> Result<u16, Malformed> {
    Ok(u16::from_be_bytes(bytes(rt)?))
}

fn read32(rt: &impl Input) -> Result<u32, Malformed> {
    Ok(u32::from_be_bytes(bytes(rt)?))
}

// The start of a buffer: as much output as a case asks for.
fn room(out: &mut [u8], n: usize) -> Result<&mut [u8], Malformed> {
    if out.len() < n {
        return Err(Malformed);
    }
    Ok(&mut out[0..n])
}

// The next item, by its tag.
fn next_item(rt: &impl Input) -> Item {
    match read8(rt) {
        Ok(0) => Item::Label,
        Ok(1) => Item::Case(Kind::Answers),
        Ok(2) => Item::Case(Kind::Refusals),
        Ok(3) => Item::Case(Kind::Routes),
        Ok(4) => Item::Case(Kind::Wire),
        Ok(5) => Item::Case(Kind::Comparisons),
        Ok(_) => Item::Malformed,
        Err(_) => Item::End,
    }
}

// ---- comparing

// What every byte of an output is before a call.
const LEFT: u8 = 0xa5;

fn is_zero(s: &[u8]) -> bool {
    s.iter().all(|x| *x == 0)
}

// Whether both hold the same bytes, the shorter followed by zeros.
fn same(a: &[u8], b: &[u8]) -> bool {
    let n = a.len().min(b.len());
    a[..n] == b[..n] && is_zero(&a[n..]) && is_zero(&b[n..])
}

// Whether a call answered and left what is wanted.
fn compared(answer: u32, wanted: u32, out: &[u8], bytes: &[u8]) -> bool {
    answer == wanted && same(out, bytes)
}

// What is wanted: the count, of routes or of bytes, or a refusal.
fn number_wanted(refusal: u8, count: u16) -> u32 {
    if refusal == 0 {
        return u32::from(count);
    }
    REFUSED + u32::from(refusal)
}

// ---- calls

// Source, destination and book.
#[derive(Clone, Copy)]
struct Query<'a> {
    src: u64,
    dst: u64,
    book: &'a [u8],
}

impl<'a> Query<'a> {
    fn new(input: &'a [u8]) -> Result<Query<'a>, Malformed> {
        if input.len() < ENDS {
            return Err(Malformed);
        }
        Ok(Query {
            src: octets::be64(input, 0),
            dst: octets::be64(input, AS),
            book: &input[ENDS..],
        })
    }

    fn list(&self, out: &mut [u8]) -> u32 {
        out.fill(LEFT);
        combinator::combinator_list(self.src, self.dst, self.book, out)
    }

    fn routes(&self, out: &mut [u8]) -> u32 {
        out.fill(LEFT);
        combinator::combinator_routes(self.src, self.dst, self.book, out)
    }

    fn assemble(&self, record: &[u8], out: &mut [u8]) -> u32 {
        out.fill(LEFT);
        combinator::combinator_assemble(self.src, self.dst, self.book, record, out)
    }
}

// ---- answers

// Reads what assembly of one record must answer.
fn path(rt: &impl Input, query: &Query, record: &[u8]) -> Result<bool, Malformed> {
    let wanted = u32::from(read8(rt)?);
    let n = usize::from(read16(rt)?);
    let mut buf = [0u8; Path::SIZE];
    let bytes = take(rt, &mut buf, n)?;
    let mut out = [0u8; Path::SIZE];
    let answer = query.assemble(record, &mut out);
    Ok(compared(answer, wanted, &out, bytes))
}

fn paths(rt: &impl Input, query: &Query, records: &[u8]) -> Result<bool, Malformed> {
    let mut all = true;
    for record in records.chunks_exact(Solution::SIZE) {
        all &= path(rt, query, record)?;
    }
    Ok(all)
}

// A case of answers.bin, after its input.
fn answers(
    rt: &impl Input,
    query: &Query,
    buf: &mut [u8],
    slots: &mut [u8],
) -> Result<bool, Malformed> {
    let count = read16(rt)?;
    let records = take(rt, buf, Solution::SIZE * usize::from(count))?;
    let answer = query.list(slots);
    let listed = compared(answer, u32::from(count), slots, records);
    Ok(paths(rt, query, records)? && listed)
}

// ---- refusals

#[derive(Clone, Copy)]
enum Asked {
    List,
    Assemble,
}

fn ask(asked: Asked, query: &Query, record: &[u8], out: &mut [u8]) -> u32 {
    match asked {
        Asked::List => query.list(out),
        Asked::Assemble => query.assemble(record, out),
    }
}

// Where a call is not refused it answers as with the usual output.
fn as_usual(
    asked: Asked,
    query: &Query,
    record: &[u8],
    answer: u32,
    out: &[u8],
    slots: &mut [u8],
) -> bool {
    if REFUSED <= answer {
        return false;
    }
    match asked {
        Asked::List => {
            let usual = query.list(slots);
            compared(answer, usual, out, slots)
        }
        Asked::Assemble => {
            let mut longest = [0u8; Path::SIZE];
            let usual = query.assemble(record, &mut longest);
            compared(answer, usual, out, &longest)
        }
    }
}

// A case of refusals.bin, after its input.
fn refusals(
    rt: &impl Input,
    query: &Query,
    out: &mut [u8],
    slots: &mut [u8],
) -> Result<bool, Malformed> {
    let asked = match read8(rt)? {
        0 => Asked::List,
        1 => Asked::Assemble,
        _ => return Err(Malformed),
    };
    let bytes = read32(rt)? as usize;
    let n = usize::from(read16(rt)?);
    let mut buf = [0u8; RECORD];
    let record = take(rt, &mut buf, n)?;
    let refusal = read8(rt)?;
    let out = room(out, bytes)?;
    let answer = ask(asked, query, record, out);
    if refusal == 0 {
        return Ok(as_usual(asked, query, record, answer, out, slots));
    }
    Ok(compared(answer, REFUSED + u32::from(refusal), out, b""))
}

// ---- routes

// A case of routes.bin, after its input.
fn routes(
    rt: &impl Input,
    query: &Query,
    out: &mut [u8],
    buf: &mut [u8],
) -> Result<bool, Malformed> {
    let bytes = read32(rt)? as usize;
    let refusal = read8(rt)?;
    let count = read16(rt)?;
    let records = take(rt, buf, Solution::SIZE * usize::from(count))?;
    let out = room(out, bytes)?;
    let answer = query.routes(out);
    Ok(compared(answer, number_wanted(refusal, count), out, records))
}

// ---- paths on the wire

// A case of wire.bin, after the path or the wire that is given.
fn carried(
    rt: &impl Input,
    given: &[u8],
    out: &mut [u8],
    buf: &mut [u8],
) -> Result<bool, Malformed> {
    let call = read8(rt)?;
    let bytes = read32(rt)? as usize;
    let refusal = read8(rt)?;
    let count = read16(rt)?;
    let wanted = take(rt, buf, usize::from(count))?;
    let out = room(out, bytes)?;
    out.fill(LEFT);
    let answer = match call {
        0 => combinator::combinator_write(given, out),
        1 => combinator::combinator_read(given, out),
        _ => return Err(Malformed),
    };
    Ok(compared(answer, number_wanted(refusal, count), out, wanted))
}

// ---- comparisons

// Reads a record, after its length.
fn record<'a>(rt: &impl Input, buf: &'a mut [u8]) -> Result<&'a [u8], Malformed> {
    let n = usize::from(read8(rt)?);
    take(rt, buf, n)
}

// Reads two records, how the first stands to the second, and how many fingerprints that takes.
fn pair(rt: &impl Input, book: &[u8]) -> Result<bool, Malformed> {
    let mut first = [0u8; RECORD];
    let a = record(rt, &mut first)?;
    let mut second = [0u8; RECORD];
    let b = record(rt, &mut second)?;
    let stands = match read8(rt)? {
        0 => Ordering::Less,
        1 => Ordering::Equal,
        2 => Ordering::Greater,
        _ => return Err(Malformed),
    };
    let digests = read8(rt)?;
    let c = order::compare_solutions(book, a, b);
    Ok(c.order == stands && c.digests == digests)
}

// A case of comparisons.bin, after its book.
fn pairs(rt: &impl Input, book: &[u8]) -> Result<bool, Malformed> {
    let mut all = true;
    for _ in 0..read16(rt)? {
        all &= pair(rt, book)?;
    }
    Ok(all)
}

// ---- labels and their cases

// Whether a case is answered as it is stored.
fn case(
    rt: &impl Input,
    kind: Kind,
    buf: &mut [u8],
    out: &mut [u8],
    slots: &mut [u8],
) -> Result<bool, Malformed> {
    let n = read32(rt)? as usize;
    let input = take(rt, buf, n)?;
    match kind {
        Kind::Answers => answers(rt, &Query::new(input)?, out, slots),
        Kind::Refusals => refusals(rt, &Query::new(input)?, out, slots),
        Kind::Routes => routes(rt, &Query::new(input)?, out, slots),
        Kind::Wire => carried(rt, input, out, slots),
        Kind::Comparisons => pairs(rt, input),
    }
}

fn say_case(rt: &impl Print, label: &[u8], k: u64, what: &[u8]) -> io::Result<()> {
    rt.write_all(label)?;
    print!(rt; ": case {k}")?;
    rt.write_all(what)
}

fn say_label(rt: &impl Print, label: &[u8], cases: u64, differ: u64) -> io::Result<()> {
    rt.write_all(label)?;
    println!(rt; ": {cases} cases, {differ} differ")
}

// The cases of one label, and what follows them.
fn cases(
    rt: &(impl Input + Print),
    label: &[u8],
    input: &mut [u8],
    out: &mut [u8],
    slots: &mut [u8],
) -> io::Result<Item> {
    let mut done: u64 = 0;
    let mut differ: u64 = 0;
    let mut next = next_item(rt);
    while done < MOST {
        let Item::Case(kind) = next else {
            break;
        };
        done += 1;
        match case(rt, kind, input, out, slots) {
            Ok(true) => {}
            Ok(false) => {
                differ += 1;
                say_case(rt, label, done, b" differs\n")?;
            }
            Err(_) => {
                say_case(rt, label, done, b" is malformed\n")?;
                return Ok(Item::Malformed);
            }
        }
        next = next_item(rt);
    }
    say_label(rt, label, done, differ)?;
    Ok(next)
}

// One label with its cases, and what follows them.
fn label(
    rt: &(impl Input + Print),
    input: &mut [u8],
    out: &mut [u8],
    slots: &mut [u8],
) -> io::Result<Item> {
    let mut buf = [0u8; 255];
    match record(rt, &mut buf) {
        Ok(text) => cases(rt, text, input, out, slots),
        Err(_) => Ok(Item::Malformed),
    }
}

// True where the input is labels and cases from its start to its end.
fn labels(
    rt: &(impl Input + Print),
    input: &mut [u8],
    out: &mut [u8],
    slots: &mut [u8],
) -> io::Result<bool> {
    let mut next = next_item(rt);
    if !matches!(next, Item::Label) {
        return Ok(false);
    }
    for _ in 0..MOST {
        if !matches!(next, Item::Label) {
            break;
        }
        next = label(rt, input, out, slots)?;
    }
    Ok(matches!(next, Item::End))
}

fn main(rt: HostRuntime) -> io::Result<()> {
    let mut input = [0u8; ENDS + Limits::BOOK + 1];
    // The longest output of a refusal, or the records of a list.
    let mut out = [0u8; 131072];
    // The usual output of listing, every slot.
    let mut slots = [0u8; Limits::SLOTS * Solution::SIZE];
    if !labels(&rt, &mut input, &mut out, &mut slots)? {
        rt.write_all(b"the input is malformed\n")?;
    }
    Ok(())
}
