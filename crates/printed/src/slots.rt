// An input's list of records, and what is printed of each.
ghost use Rattle.std.specs.Prelude.{◌≡◌, ◌+◌, ◌*◌, ◌≤◌, length, drop};
ghost use Rattle.spec.specs.Limits.{solution_size};
ghost use Rattle.spec.specs.Book.{isd_asn_at};
ghost use Rattle.order.specs.Records.{record_at};
ghost use Rattle.path.specs.Places.{Wrote};
ghost use Rattle.printed.specs.Pieces.{ends_size, slot_text, slot_has_path, paths_to, listed, solution_text_size};

use crate::solution;
use spec::{IsdAsn, Refusal, Solution};

// The bytes of an AS, and of an input before its book: source and destination.
const AS: usize = 8;

pub const ENDS: usize = 2 * AS;

// What an input asks: the two ends, of a book.
#[derive(Clone, Copy)]
struct Query<'a> {
    src: IsdAsn,
    dst: IsdAsn,
    book: &'a [u8],
}

fn query_in(input: &[u8]) -> Query<'_>
    requires { ends_size ≤ length input.now }
    ensures { (result.src ≡ isd_asn_at input.now 0) × (result.dst ≡ isd_asn_at input.now 8) × (result.book.now ≡ drop ends_size input.now) }
{
    Query {
        src: segment::isd_asn(input, 0),
        dst: segment::isd_asn(input, AS),
        book: &input[ENDS..],
    }
}

// The record in slot k.
fn record_at(records: &[u8], k: usize) -> &[u8]
    requires { solution_size * (k + 1) ≤ length records.now }
    ensures { result.now ≡ record_at records.now k }
{
    let at = Solution::SIZE * k;
    &records[at..at + Solution::SIZE]
}

pub(crate) fn list(input: &[u8], records: &mut [u8]) -> Result<usize, Refusal>
    ensures { (result, records.new) ≡ listed input.now (length records.old) }
{
    if input.len() < ENDS {
        output::zero(records, 0);
        return Err(Refusal::Cut);
    }
    let query = query_in(input);
    graph::list(query.src, query.dst, query.book, records)
}

fn has_path(input: &[u8], records: &[u8], k: usize) -> bool
    requires ends_size_in_bounds { ends_size ≤ length input.now }
    requires k_in_bounds { solution_size * (k + 1) ≤ length records.now }
    ensures { result ≡ slot_has_path input.now records.now k }
{
    let query = query_in(input);
    solution::has_path(query.src, query.dst, query.book, record_at(records, k))
}

// How many of the first n slots hold the record of a path.
pub(crate) fn count_paths(input: &[u8], records: &[u8], n: usize) -> usize
    requires ends_size_in_bounds { ends_size ≤ length input.now }
    requires n_in_bounds { solution_size * n ≤ length records.now }
    ensures { result ≡ paths_to input.now records.now n }
{
    let mut paths: usize = 0;
    for k in 0..n {
        if has_path(input, records, k) {
            paths += 1;
        }
    }
    paths
}

pub(crate) fn put_slot(input: &[u8], records: &[u8], k: usize, out: &mut [u8]) -> usize
    requires ends_size_in_bounds { ends_size ≤ length input.now }
    requires k_in_bounds { solution_size * (k + 1) ≤ length records.now }
    ensures { Wrote out.old 0 (slot_text input.now records.now k) out.new result × (result ≤ solution_text_size) }
{
    let query = query_in(input);
    let number = (k + 1) as u64;
    let given = record_at(records, k);
    solution::put_solution(query.src, query.dst, query.book, given, number, out)
}
