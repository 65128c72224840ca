// Prints a list: source (8), destination (8) and book from standard input, the lines to standard output.
// No contract can say what is read or written. So each piece goes to a function that requires its bytes to
// be that piece, and `print` answers how many bytes it handed over: as many as the list has.
#![tactic(auto)]

ghost use Rattle.std.specs.Prelude.{◌≡◌, ◌*◌, ◌≤◌, ◌<◌, length};
ghost use mathlib.Core.List.{flat_map};
ghost use Rattle.sha256.specs.Message.{sha256};
ghost use Rattle.spec.specs.Limits.{max_slots, solution_size};
ghost use Rattle.spec.specs.Basics.{range};
ghost use Rattle.spec.specs.Printed.{printed};
ghost use Rattle.printed.specs.Pieces.{listed, count_of, first_line, slot_text, first_line_size, solution_text_size};

use printed::Opening;
use spec::{Limits, Solution};
use std::io::Read;

// An input whose book is one byte too long: what follows makes no difference (`printed-front` of crate
// `printed`).
const INPUT: usize = printed::ENDS + Limits::BOOK + 1;

const RECORDS: usize = Limits::SLOTS * Solution::SIZE;

// Here and below a write that fails is let go: what is counted is what was handed over.
fn write_first(rt: &impl Print, input: &[u8], line: &[u8]) -> usize
    requires { line.now ≡ first_line input.now (max_slots * solution_size) }
    ensures { result ≡ length line.now }
{
    let _ = rt.write_all(line);
    line.len()
}

fn write_slot(rt: &impl Print, input: &[u8], records: &[u8], k: usize, lines: &[u8]) -> usize
    requires records_value { records.now ≡ (listed input.now (max_slots * solution_size)).1 }
    requires k_bound { k < count_of (listed input.now (max_slots * solution_size)).0 }
    requires lines_value { lines.now ≡ slot_text input.now records.now k }
    ensures { result ≡ length lines.now }
{
    let _ = rt.write_all(lines);
    lines.len()
}

// The first line. It leaves the records, and answers how many there are and how long the line is.
fn print_first(rt: &impl Print, input: &[u8], records: &mut [u8]) -> Opening
    requires { length records.old ≡ max_slots * solution_size }
    ensures solutions_value { (result.solutions ≡ count_of (listed input.now (max_slots * solution_size)).0) × (records.new ≡ (listed input.now (max_slots * solution_size)).1) }
    ensures length_value { (result.length ≡ length (first_line input.now (max_slots * solution_size))) × (result.length ≤ first_line_size) }
{
    let mut text = [0u8; printed::TEXT];
    let first = printed::first_line(input, records, &mut text);
    let n = first.length;
    let written = write_first(rt, input, &text[..n]);
    Opening {
        length: written,
        solutions: first.solutions,
    }
}

fn print_slot(rt: &impl Print, input: &[u8], records: &[u8], k: usize) -> usize
    requires records_value { records.now ≡ (listed input.now (max_slots * solution_size)).1 }
    requires k_bound { k < count_of (listed input.now (max_slots * solution_size)).0 }
    ensures { (result ≡ length (slot_text input.now records.now k)) × (result ≤ solution_text_size) }
{
    let mut text = [0u8; printed::TEXT];
    let n = printed::solution_lines(input, records, k, &mut text);
    write_slot(rt, input, records, k, &text[..n])
}

// Each solution, from the first to the last.
fn print_slots(rt: &impl Print, input: &[u8], records: &[u8], count: usize) -> usize
    requires records_value { records.now ≡ (listed input.now (max_slots * solution_size)).1 }
    requires count_value { count ≡ count_of (listed input.now (max_slots * solution_size)).0 }
    ensures { (result ≡ length (flat_map (slot_text input.now records.now) (range 0 count))) × (result ≤ max_slots * solution_text_size) }
{
    let mut written: usize = 0;
    for k in 0..count {
        written += print_slot(rt, input, records, k);
    }
    written
}

fn print(rt: &impl Print, input: &[u8]) -> usize
    ensures { result ≡ length (printed sha256 input.now) }
{
    let mut records = [0u8; RECORDS];
    let first = print_first(rt, input, &mut records);
    first.length + print_slots(rt, input, &records, first.solutions)
}

// Reads to the start of buf until it is full or the input ends, or cannot be read, and answers how many bytes those are.
fn read_full(rt: &impl Input, buf: &mut [u8]) -> usize
    ensures { result ≤ length buf.new }
{
    let mut from = rt.reader();
    let mut done: usize = 0;
    while done < buf.len() {
        let n = from.read(&mut buf[done..]).unwrap_or(0);
        if n == 0 {
            break;
        }
        done += n;
    }
    done
}

fn main(rt: HostRuntime) {
    let mut input = [0u8; INPUT];
    let n = read_full(&rt, &mut input);
    print(&rt, &input[..n]);
}
