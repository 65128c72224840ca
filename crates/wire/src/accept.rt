// What the writer and the reader take.
ghost use Rattle.std.specs.Prelude.{◌≡◌, ◌+◌, ◌*◌, ◌≤◌, ◌<◌, ◌∷◌, [], length};
ghost use Rattle.spec.specs.Limits.{max_edges, path_head_size, info_size, path_size, meta_size, wire_info_size, wire_hop_size, wire_size};
ghost use Rattle.spec.specs.Basics.{any, range};
ghost use Rattle.spec.specs.Wire.{segment_length, wire_info_count, is_wrong_info, uses_reserved, is_flagged, wrong_lengths, writer_refuses, reader_refuses};
ghost use Rattle.wire.specs.Taking.{taking};

use spec::{HopField, InfoField, Limits, Path, PathInterface, Refusal, Solution};

// The meta header as a number: segment lengths are digits to the base LENGTH, the last one lowest; what stands at
// LENGTHS and above is the current indexes and what is reserved.
pub(crate) const LENGTH: u32 = 64;

pub(crate) const FIRST: u32 = LENGTH * LENGTH;

const LENGTHS: u32 = LENGTH * FIRST;

// ---- the writer

// Info k has flags above 3, or a hop count outside 1 to the most entries.
fn is_wrong_info(path: &[u8], k: usize) -> bool
    requires { (k < max_edges) × (path_head_size + info_size * k + info_size ≤ length path.now) }
    ensures { result ≡ is_wrong_info path.now k }
{
    let at = Path::HEAD + InfoField::SIZE * k;
    if 3 < path[at] {
        return true;
    }
    let hops = usize::from(path[at + InfoField::HOPS]);
    hops == 0 || Limits::ENTRIES < hops
}

fn refuses_record(path: &[u8]) -> bool
    ensures { result ≡ writer_refuses path.now }
{
    if path.len() < Path::HEAD {
        return true;
    }
    let infos = usize::from(path[Path::INFO_COUNT]);
    if infos == 0 {
        return true;
    }
    if Solution::EDGES < infos {
        return true;
    }
    let hops = usize::from(path[Path::HOP_COUNT]);
    if path.len()
        < Path::HEAD
            + InfoField::SIZE * infos
            + HopField::SIZE * hops
            + PathInterface::SIZE * usize::from(path[Path::INTERFACE_COUNT])
    {
        return true;
    }
    let mut total: usize = 0;
    for k in 0..infos {
        if is_wrong_info(path, k) {
            return true;
        }
        total += usize::from(path[Path::HEAD + InfoField::SIZE * k + InfoField::HOPS]);
    }
    total != hops
}

pub(crate) fn test_record(path: &[u8], room: usize) -> Result<(), Refusal>
    ensures { result ≡ taking room wire_size (writer_refuses path.now) }
{
    if room < Path::WIRE {
        return Err(Refusal::Small);
    }
    if refuses_record(path) {
        return Err(Refusal::Wire);
    }
    Ok(())
}

// ---- the reader

// The lengths of the three segments.
pub(crate) fn lengths_in(wire: &[u8]) -> [u8; 3]
    ensures { result ≡ segment_length wire.now 0 ∷ segment_length wire.now 1 ∷ segment_length wire.now 2 ∷ [] }
{
    let meta = octets::be32(wire, 0);
    [
        (meta / FIRST % LENGTH) as u8,
        (meta / LENGTH % LENGTH) as u8,
        (meta % LENGTH) as u8,
    ]
}

// How many of them are used.
pub(crate) fn info_count(wire: &[u8]) -> usize
    ensures { (result ≡ wire_info_count wire.now) × (result ≤ max_edges) }
{
    let [first, second, third] = lengths_in(wire);
    if first == 0 {
        return 0;
    }
    if second == 0 {
        return 1;
    }
    if third == 0 {
        return 2;
    }
    3
}

// Info k has a reserved bit that is not 0.
fn uses_reserved(wire: &[u8], k: usize) -> bool
    requires { (k < max_edges) × (meta_size + wire_info_size * k + wire_info_size ≤ length wire.now) }
    ensures { result ≡ uses_reserved wire.now k }
{
    let at = Path::META + InfoField::WIRE * k;
    3 < wire[at] || wire[at + InfoField::HOPS] != 0
}

fn has_reserved(wire: &[u8], n: usize) -> bool
    requires { (n ≤ max_edges) × (meta_size + wire_info_size * n ≤ length wire.now) }
    ensures { result ≡ any (uses_reserved wire.now) (range 0 n) }
{
    for k in 0..n {
        if uses_reserved(wire, k) {
            return true;
        }
    }
    false
}

// A hop has a flag.
fn has_flag(wire: &[u8], n: usize, m: usize) -> bool
    requires { (n ≡ wire_info_count wire.now) × (n ≤ max_edges) × (m < 192) × (meta_size + wire_info_size * n + wire_hop_size * m ≤ length wire.now) }
    ensures { result ≡ any (is_flagged wire.now) (range 0 m) }
{
    let base = Path::META + InfoField::WIRE * n;
    for k in 0..m {
        if wire[base + HopField::WIRE * k] != 0 {
            return true;
        }
    }
    false
}

// A length is above the most entries, the first is 0, or one is 0 before one that is not.
fn are_wrong_lengths(first: usize, second: usize, third: usize) -> bool
    ensures { result ≡ wrong_lengths first second third }
{
    if first == 0 {
        return true;
    }
    if Limits::ENTRIES < first {
        return true;
    }
    if Limits::ENTRIES < second {
        return true;
    }
    if Limits::ENTRIES < third {
        return true;
    }
    second == 0 && third != 0
}

fn refuses_wire(wire: &[u8]) -> bool
    ensures { result ≡ reader_refuses wire.now }
{
    if LENGTHS <= octets::be32(wire, 0) {
        return true;
    }
    let lengths = lengths_in(wire);
    let first = usize::from(lengths[0]);
    let second = usize::from(lengths[1]);
    let third = usize::from(lengths[2]);
    if are_wrong_lengths(first, second, third) {
        return true;
    }
    let n = info_count(wire);
    let m = first + second + third;
    if wire.len() != Path::META + InfoField::WIRE * n + HopField::WIRE * m {
        return true;
    }
    if has_reserved(wire, n) {
        return true;
    }
    has_flag(wire, n, m)
}

pub(crate) fn test_wire(wire: &[u8], room: usize) -> Result<(), Refusal>
    ensures { result ≡ taking room path_size (reader_refuses wire.now) }
{
    if room < Path::SIZE {
        return Err(Refusal::Small);
    }
    if refuses_wire(wire) {
        return Err(Refusal::Wire);
    }
    Ok(())
}
