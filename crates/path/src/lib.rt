// Assembly: the path of a chain, from the book to the bytes of its record.
#![tactic(auto)]

mod edge;
mod entry;
mod loop_test;
mod mark;
mod places;
mod record;
mod route_list;
mod shown;
mod within;

ghost use Rattle.std.specs.Prelude.{◌≡◌, ◌≤◌, length, Ok};
ghost use Rattle.spec.specs.Limits.{path_size};
ghost use Rattle.spec.specs.Answers.{path_answer, assembly};
ghost use Rattle.path.specs.Edges.{edges_in};
ghost use Rattle.path.specs.Refusing.{zeros_if_refused};

use book::PLACES;
use graph::Opened;
use places::PlacedRecord;
pub use route_list::routes;
use spec::{IsdAsn, Outcome, Path, PathInterface, Refusal};

// The most bytes of a path's interface ASes, and of their ids.
pub(crate) const ASES: usize = PathInterface::AS * Path::INTERFACES;

pub(crate) const IDS: usize = PathInterface::ID * Path::INTERFACES;

// The path of a record's first `count` edges, in `out`: its record, or zeros where it is Loop or Bare.
fn build(record: &PlacedRecord, out: &mut [u8]) -> Outcome
    requires { path_size ≤ length out.old }
    ensures { (Ok result ≡ (path_answer record.now.opened.book.now (length out.old) (edges_in record.now.given.now record.now.count)).0) × (out.new ≡ (path_answer record.now.opened.book.now (length out.old) (edges_in record.now.given.now record.now.count)).1) }
{
    let mut ases = [0u8; ASES];
    let mut ids = [0u8; IDS];
    let ends = record.put_edges(out, &mut ases, &mut ids);
    let shown = ends.ases / PathInterface::AS;
    if loop_test::is_loop(&ases, 0, shown) {
        output::zero(out, 0);
        return Outcome::Loop;
    }
    if shown == 0 {
        output::zero(out, 0);
        return Outcome::Bare;
    }
    record.put_path(out, &ases, &ids, ends);
    Outcome::Path
}

// What `assemble` answers, before the output of a refusal is zeroed.
fn assembled(
    src: IsdAsn,
    dst: IsdAsn,
    book: &[u8],
    given: &[u8],
    out: &mut [u8],
) -> Result<Outcome, Refusal>
    ensures { (result, zeros_if_refused result out.new) ≡ assembly book.now src dst given.now (length out.old) }
{
    let mut table = [0u16; PLACES];
    let chain = graph::chain_of(src, dst, book, given, &mut table)?;
    if out.len() < Path::SIZE {
        return Err(Refusal::Small);
    }
    let Some(count) = chain else {
        return Err(Refusal::Stranger);
    };
    let opened = Opened {
        book,
        table: &table,
    };
    let record = PlacedRecord {
        opened,
        given,
        count: usize::from(count),
    };
    Ok(build(&record, out))
}

// Assembles the path of the chain from `src` to `dst` that the record `given` is of, in `out`: its record, or
// zeros where it is Loop or Bare, or a refusal and zeros.
pub fn assemble(
    src: IsdAsn,
    dst: IsdAsn,
    book: &[u8],
    given: &[u8],
    out: &mut [u8],
) -> Result<Outcome, Refusal>
    ensures { (result, out.new) ≡ assembly book.now src dst given.now (length out.old) }
{
    let answer = assembled(src, dst, book, given, out);
    if answer.is_err() {
        output::zero(out, 0);
    }
    answer
}
