// The archive's functions: each is the one of crate `combinator`, with the same name and clauses. A crate is a library
// for other crates or a static library, and that one is cited by other crates.
#![tactic(auto)]

ghost use Rattle.std.specs.Prelude.{◌≡◌, length};
ghost use Rattle.combinator.specs.Exports.{list_returned, routes_returned, path_returned, write_returned, read_returned};

// Lists every solution from `src` to `dst` of a book into `out`.
#[unsafe(no_mangle)]
pub extern "C" fn combinator_list(src: u64, dst: u64, book: &[u8], out: &mut [u8]) -> u32
    ensures { (result, out.new) ≡ list_returned book.now src dst (length out.old) }
{
    combinator::combinator_list(src, dst, book, out)
}

// Lists the routes from `src` to `dst` of a book into `out`: of the solutions with one list of interfaces, the longest-lived.
#[unsafe(no_mangle)]
pub extern "C" fn combinator_routes(src: u64, dst: u64, book: &[u8], out: &mut [u8]) -> u32
    ensures { (result, out.new) ≡ routes_returned book.now src dst (length out.old) }
{
    combinator::combinator_routes(src, dst, book, out)
}

// Assembles the path of the solution whose record is `given`, in `out`.
#[unsafe(no_mangle)]
pub extern "C" fn combinator_assemble(
    src: u64,
    dst: u64,
    book: &[u8],
    given: &[u8],
    out: &mut [u8],
) -> u32
    ensures { (result, out.new) ≡ path_returned book.now src dst given.now (length out.old) }
{
    combinator::combinator_assemble(src, dst, book, given, out)
}

// Writes the path of a path record as the bytes that the routers take: how many they are.
#[unsafe(no_mangle)]
pub extern "C" fn combinator_write(path: &[u8], out: &mut [u8]) -> u32
    ensures { (result, out.new) ≡ write_returned path.now (length out.old) }
{
    combinator::combinator_write(path, out)
}

// Reads such bytes into a path record of which only infos and hops are known: how many bytes it has.
#[unsafe(no_mangle)]
pub extern "C" fn combinator_read(wire: &[u8], out: &mut [u8]) -> u32
    ensures { (result, out.new) ≡ read_returned wire.now (length out.old) }
{
    combinator::combinator_read(wire, out)
}
