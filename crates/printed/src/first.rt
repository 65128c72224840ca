// The first line: the counts, or a refusal.
ghost use Rattle.std.specs.Prelude.{◌≤◌};
ghost use Rattle.spec.specs.Printed.{refused_line};
ghost use Rattle.path.specs.Places.{Wrote};
ghost use Rattle.printed.specs.Pieces.{counts_line, first_line_size};

use crate::text;
use spec::Refusal;

pub(crate) fn refused_line(out: &mut [u8], r: Refusal) -> usize
    ensures { Wrote out.old 0 (refused_line r) out.new result × (result ≤ first_line_size) }
{
    let next = text::put_item(out, 0, b"refused ", u64::from(r.number()));
    text::put_word(out, next, b"\n")
}

pub(crate) fn counts_line(out: &mut [u8], solutions: u64, paths: u64) -> usize
    ensures { Wrote out.old 0 (counts_line solutions paths) out.new result × (result ≤ first_line_size) }
{
    let next = text::put_item(out, 0, b"solutions ", solutions);
    let then = text::put_item(out, next, b" paths ", paths);
    text::put_word(out, then, b"\n")
}
