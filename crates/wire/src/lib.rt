// The standard path of the data draft: written of a path record, and read into one.
#![tactic(auto)]

mod accept;
mod put;

ghost use Rattle.std.specs.Prelude.{◌≡◌, length};
ghost use Rattle.spec.specs.Wire.{writing, reading};

use put::{TakenRecord, TakenWire};
use spec::Refusal;

// Writes the path of a record, as the routers take it: how many bytes it has, and zeros after them.
pub fn write(path: &[u8], out: &mut [u8]) -> Result<usize, Refusal>
    ensures { (result, out.new) ≡ writing path.now (length out.old) }
{
    if let Err(r) = accept::test_record(path, out.len()) {
        output::zero(out, 0);
        return Err(r);
    }
    let end = TakenRecord { path }.put(out);
    output::zero(out, end);
    Ok(end)
}

// Reads a path from the wire into a record: how many bytes that has, and zeros after them.
pub fn read(wire: &[u8], out: &mut [u8]) -> Result<usize, Refusal>
    ensures { (result, out.new) ≡ reading wire.now (length out.old) }
{
    if let Err(r) = accept::test_wire(wire, out.len()) {
        output::zero(out, 0);
        return Err(r);
    }
    let end = TakenWire { wire }.put(out);
    output::zero(out, end);
    Ok(end)
}
