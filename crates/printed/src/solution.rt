// The lines of a solution, from its record.
ghost use Rattle.std.specs.Prelude.{◌≡◌, ◌≤◌};
ghost use Rattle.spec.specs.Limits.{path_size};
ghost use Rattle.spec.specs.Answers.{assembly};
ghost use Rattle.spec.specs.Printed.{is_path};
ghost use Rattle.path.specs.Places.{Wrote};
ghost use Rattle.printed.specs.Pieces.{start_text, text_by, solution_text, solution_text_size};

use crate::{lines, text};
use spec::{IsdAsn, Outcome, Path, Refusal};

// Its number, cost, edges.
fn put_start(given: &[u8], number: u64, out: &mut [u8]) -> usize
    ensures { Wrote out.old 0 (start_text given.now number) out.new result × (result ≤ 128) }
{
    let cost = records::cost(given);
    let count = records::edge_count(given);
    let next = text::put_decimal(out, 0, number);
    let then = text::put_item(out, next, b" cost ", u64::from(cost));
    text::put_item(out, then, b" segments ", u64::from(count))
}

// For assembly's answer: the named fields and the lines of the path, or loop or bare in their place.
fn put_answered(
    answer: Result<Outcome, Refusal>,
    path: &[u8],
    given: &[u8],
    number: u64,
    out: &mut [u8],
) -> usize
    ensures { Wrote out.old 0 (text_by answer path.now given.now number) out.new result }
{
    let Ok(outcome) = answer else {
        return 0;
    };
    let at = put_start(given, number, out);
    match outcome {
        Outcome::Path => lines::put_path(path, out, at),
        Outcome::Loop => text::put_word(out, at, b" loop\n"),
        Outcome::Bare => text::put_word(out, at, b" bare\n"),
    }
}

// All lines of the solution whose record is given; a refused book's and a stranger's record have none.
pub(crate) fn put_solution(
    src: IsdAsn,
    dst: IsdAsn,
    book: &[u8],
    given: &[u8],
    number: u64,
    out: &mut [u8],
) -> usize
    ensures { Wrote out.old 0 (solution_text book.now src dst given.now number) out.new result × (result ≤ solution_text_size) }
{
    let mut path = [0u8; Path::SIZE];
    let answer = path::assemble(src, dst, book, given, &mut path);
    put_answered(answer, &path, given, number, out)
}

pub(crate) fn has_path(src: IsdAsn, dst: IsdAsn, book: &[u8], given: &[u8]) -> bool
    ensures { result ≡ is_path (assembly book.now src dst given.now path_size).0 }
{
    let mut path = [0u8; Path::SIZE];
    let answer = path::assemble(src, dst, book, given, &mut path);
    answer == Ok(Outcome::Path)
}
