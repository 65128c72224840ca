// The functions that the gateway's C host calls: numbers and byte slices in, a number out. Below 65,536 the
// number is the answer itself; 65,536 + N is refusal N.
#![tactic(auto)]

ghost use Rattle.std.specs.Prelude.{◌≡◌, ◌<◌, ◌^◌, length};
ghost use Rattle.spec.specs.Answers.{list_number};
ghost use Rattle.combinator.specs.Exports.{list_returned, routes_returned, path_returned, write_returned, read_returned};

use spec::{IsdAsn, Outcome, Refusal};

const REFUSALS: u32 = 65536;

// A count, or a refusal, as the number that is returned.
fn counted(answer: Result<usize, Refusal>) -> u32
    requires { list_number answer < 2 ^ 32 }
    ensures { result ≡ list_number answer }
{
    match answer {
        Ok(n) => n as u32,
        Err(r) => REFUSALS + r.number(),
    }
}

// Lists every solution from `src` to `dst` of a book into `out`.
#[unsafe(no_mangle)]
pub extern "C" fn combinator_list(src: u64, dst: u64, book: &[u8], out: &mut [u8]) -> u32
    ensures { (result, out.new) ≡ list_returned book.now src dst (length out.old) }
{
    counted(graph::list(IsdAsn(src), IsdAsn(dst), book, out))
}

// Lists the routes from `src` to `dst` of a book into `out`: of the solutions with one list of interfaces, the longest-lived.
#[unsafe(no_mangle)]
pub extern "C" fn combinator_routes(src: u64, dst: u64, book: &[u8], out: &mut [u8]) -> u32
    ensures { (result, out.new) ≡ routes_returned book.now src dst (length out.old) }
{
    counted(path::routes(IsdAsn(src), IsdAsn(dst), book, out))
}

// Assembles the path of the solution whose record is `given`, in `out`.
#[unsafe(no_mangle)]
pub extern "C" fn combinator_assemble(
    src: u64,
    dst: u64,
    book: &[u8],
    given: &[u8],
    out: &mut [u8],
) -> u32
    ensures { (result, out.new) ≡ path_returned book.now src dst given.now (length out.old) }
{
    match path::assemble(IsdAsn(src), IsdAsn(dst), book, given, out) {
        Ok(Outcome::Path) => 0,
        Ok(Outcome::Loop) => 1,
        Ok(Outcome::Bare) => 2,
        Err(refusal) => REFUSALS + refusal.number(),
    }
}

// Writes the path of a path record as the bytes that the routers take: how many they are.
#[unsafe(no_mangle)]
pub extern "C" fn combinator_write(path: &[u8], out: &mut [u8]) -> u32
    ensures { (result, out.new) ≡ write_returned path.now (length out.old) }
{
    counted(wire::write(path, out))
}

// Reads such bytes into a path record of which only infos and hops are known: how many bytes it has.
#[unsafe(no_mangle)]
pub extern "C" fn combinator_read(wire: &[u8], out: &mut [u8]) -> u32
    ensures { (result, out.new) ≡ read_returned wire.now (length out.old) }
{
    counted(wire::read(wire, out))
}
