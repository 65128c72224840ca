// The lines of a path, from its record.
ghost use Rattle.std.specs.Prelude.{◌≡◌, ◌+◌, ◌*◌, ◌^◌, ◌≤◌, ◌<◌};
ghost use Rattle.spec.specs.Printed.{info_line, interface_line};
ghost use Rattle.path.specs.Places.{Wrote};
ghost use Rattle.printed.specs.Lines.{fields_line, info_text, interface_text, lines_to, path_text};

use crate::text;
use spec::{InfoField, PathInterface};

// An info: flags, id, timestamp.
fn info_line(out: &mut [u8], at: usize, i: InfoField) -> usize
    requires { at < 2 ^ 48 }
    ensures { Wrote out.old at (info_line i) out.new result × (result ≤ at + 64) }
{
    let flags = u64::from(i.construction) + 2 * u64::from(i.peering);
    let next = text::put_item(out, at, b"info ", flags);
    let space = text::put_word(out, next, b" ");
    let then = text::put_hex(out, space, 4, u64::from(i.id));
    let last = text::put_item(out, then, b" ", u64::from(i.timestamp));
    text::put_word(out, last, b"\n")
}

// An interface: AS, id.
fn interface_line(out: &mut [u8], at: usize, i: PathInterface) -> usize
    requires { at < 2 ^ 48 }
    ensures { Wrote out.old at (interface_line i) out.new result × (result ≤ at + 64) }
{
    let next = text::put_word(out, at, b"if ");
    let then = text::put_hex(out, next, 16, i.local.0);
    let last = text::put_item(out, then, b" ", u64::from(i.id));
    text::put_word(out, last, b"\n")
}

// The rest of a solution's first line.
fn fields_line(out: &mut [u8], at: usize, mtu: u16, expiry: u32, hops: u8) -> usize
    requires { at < 2 ^ 48 }
    ensures { Wrote out.old at (fields_line mtu expiry hops) out.new result × (result ≤ at + 128) }
{
    let next = text::put_item(out, at, b" mtu ", u64::from(mtu));
    let then = text::put_item(out, next, b" expiry ", u64::from(expiry));
    let last = text::put_item(out, then, b" hops ", u64::from(hops));
    text::put_word(out, last, b"\n")
}

fn put_infos(path: &[u8], count: u8, out: &mut [u8], at: usize) -> usize
    requires { at < 2 ^ 40 }
    ensures { Wrote out.old at (lines_to (info_text path.now) count) out.new result × (result ≤ at + 64 * 256) }
{
    let mut to = at;
    for k in 0..count {
        to = info_line(out, to, records::info(path, k));
    }
    to
}

fn put_interfaces(path: &[u8], count: u8, out: &mut [u8], at: usize) -> usize
    requires { at < 2 ^ 40 }
    ensures { Wrote out.old at (lines_to (interface_text path.now) count) out.new result × (result ≤ at + 64 * 256) }
{
    let mut to = at;
    for k in 0..count {
        to = interface_line(out, to, records::interface(path, k));
    }
    to
}

// A path: the rest of its first line, its infos, its interfaces.
pub(crate) fn put_path(path: &[u8], out: &mut [u8], at: usize) -> usize
    requires { at < 2 ^ 32 }
    ensures { Wrote out.old at (path_text path.now) out.new result }
{
    let head = records::path_head(path);
    let next = fields_line(out, at, head.mtu, head.expiry, head.hops);
    let then = put_infos(path, head.infos, out, next);
    put_interfaces(path, head.interfaces, out, then)
}
