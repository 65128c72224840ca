// The stored edges of a book, the chains of them and the list: what graph.rs calls the multigraph, worked
// out of the book where it lies.
#![tactic(auto)]

ghost use Rattle.std.specs.Prelude.{◌≡◌, ◌*◌, ◌/◌, length};
ghost use Rattle.sha256.specs.Message.{sha256};
ghost use Rattle.spec.specs.Records.{slots};
ghost use Rattle.spec.specs.Answers.{listing};

mod chains;
mod edge_by_identity;
mod edges;
mod first_of_equals;
mod opened;
mod search;
mod slots;
mod vertices;

use book::PLACES;
pub use chains::chain_of;
pub use opened::Opened;
use spec::{IsdAsn, Limits, Refusal, Solution};

// How many solutions fit in so many bytes.
fn slots_of(bytes: usize) -> usize
    ensures { result ≡ slots bytes }
{
    (bytes / Solution::SIZE).min(Limits::SLOTS)
}

// The list of an accepted book.
fn list_accepted(
    src: IsdAsn,
    dst: IsdAsn,
    opened: &Opened,
    out: &mut [u8],
) -> Result<usize, Refusal>
    ensures { (result, out.new) ≡ listing sha256 opened.now.book.now src dst (length out.old) }
{
    let room = slots_of(out.len());
    let n = search::search(opened, src, dst, out, room);
    if room < n {
        output::zero(out, 0);
        return Err(Refusal::Full);
    }
    order::sort(opened.book, out, n);
    output::zero(out, Solution::SIZE * n);
    Ok(n)
}

// Lists every chain from `src` to `dst` into `out`: their count and their records in order, or a refusal
// and zeros.
pub fn list(src: IsdAsn, dst: IsdAsn, book: &[u8], out: &mut [u8]) -> Result<usize, Refusal>
    ensures { (result, out.new) ≡ listing sha256 book.now src dst (length out.old) }
{
    let mut table = [0u16; PLACES];
    if let Err(r) = book::open(book, &mut table) {
        output::zero(out, 0);
        return Err(r);
    }
    let opened = Opened {
        book,
        table: &table,
    };
    list_accepted(src, dst, &opened, out)
}
