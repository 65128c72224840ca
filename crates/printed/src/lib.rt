// The printed list, piece by piece, in a lent buffer: the first line, then the lines of each solution.
// `proofs/Joined` says that the pieces, one after the other, are the list.
#![tactic(auto)]

ghost use Rattle.std.specs.Prelude.{◌≡◌, ◌≤◌, length};
ghost use Rattle.output.specs.Write.{written};
ghost use Rattle.printed.specs.Pieces.{listed, count_of, first_line, first_line_size, slot_text, solution_text_size};

mod first;
mod lines;
mod slots;
mod solution;
mod text;

pub use slots::ENDS;
use spec::{Path, Solution};

// The longest line of an info, of an interface and of a solution, as `specs/Pieces` has them.
const INFO_LINE: usize = 5 + 1 + 1 + 4 + 1 + 10 + 1;

const INTERFACE_LINE: usize = 3 + 16 + 1 + 5 + 1;

const SOLUTION_LINE: usize = 20 + (6 + 5) + (10 + 1) + (5 + 5) + (8 + 10) + (6 + 2) + 1;

// The longest piece: all lines of a solution.
pub const TEXT: usize = SOLUTION_LINE
    + Solution::EDGES * INFO_LINE
    + Path::INTERFACES * INTERFACE_LINE;

// How long the first line is, and how many solutions follow it.
#[derive(Clone, Copy)]
pub struct Opening {
    pub length: usize,
    pub solutions: usize,
}

// Lists the solutions of an input (source 8, destination 8, then the book) into `records`, and writes the
// list's first line into `out`: their count and that of the paths, or a refusal. It makes a piece of a text, to which
// demand 1 does not apply: docs/DECISIONS.md says which functions it binds.
pub fn first_line(input: &[u8], records: &mut [u8], out: &mut [u8]) -> Opening
    ensures { (records.new ≡ (listed input.now (length records.old)).1) × (result.solutions ≡ count_of (listed input.now (length records.old)).0) × (out.new ≡ written out.old 0 (first_line input.now (length records.old))) × (result.length ≡ length (first_line input.now (length records.old))) × (result.length ≤ first_line_size) }
{
    match slots::list(input, records) {
        Ok(n) => {
            let paths = slots::count_paths(input, records, n);
            Opening {
                length: first::counts_line(out, n as u64, paths as u64),
                solutions: n,
            }
        }
        Err(r) => Opening {
            length: first::refused_line(out, r),
            solutions: 0,
        },
    }
}

// Writes the lines of the solution whose record stands in slot k, and answers how long they are. A slot
// that holds no solution's record has none. As for the first line, demand 1 does not apply.
pub fn solution_lines(input: &[u8], records: &[u8], k: usize, out: &mut [u8]) -> usize
    ensures { (out.new ≡ written out.old 0 (slot_text input.now records.now k)) × (result ≡ length (slot_text input.now records.now k)) × (result ≤ solution_text_size) }
{
    if input.len() < ENDS {
        return 0;
    }
    if records.len() / Solution::SIZE <= k {
        return 0;
    }
    slots::put_slot(input, records, k, out)
}
