// The record of a path.
ghost use Rattle.std.specs.Prelude.{◌≡◌, ◌^◌, ◌<◌};
ghost use Rattle.spec.specs.Records.{ases_offset, ids_offset, info_octets, path_head_in, path_head_octets, record_interface};
ghost use Rattle.spec.specs.Router.{record_info};
ghost use Rattle.output.specs.Write.{written};

use crate::solution_record::bit;
use spec::{HopField, InfoField, IsdAsn, Path, PathInterface};

// ---- what stands before the infos

// Where its other parts stand.
const ZERO: usize = 3;

const MTU: usize = 4;

const EXPIRY: usize = 6;

const FIRST: usize = 10;

const LAST: usize = 18;

pub fn path_head(path: &[u8]) -> Path
    ensures { result ≡ path_head_in path.now }
{
    Path {
        infos: octets::byte(path, Path::INFO_COUNT),
        hops: octets::byte(path, Path::HOP_COUNT),
        interfaces: octets::byte(path, Path::INTERFACE_COUNT),
        mtu: octets::be16(path, MTU),
        expiry: octets::be32(path, EXPIRY),
        first: IsdAsn(octets::be64(path, FIRST)),
        last: IsdAsn(octets::be64(path, LAST)),
    }
}

pub fn put_head(out: &mut [u8], head: Path)
    ensures { out.new ≡ written out.old 0 (path_head_octets head) }
{
    output::put_byte(out, Path::INFO_COUNT, head.infos);
    output::put_byte(out, Path::HOP_COUNT, head.hops);
    output::put_byte(out, Path::INTERFACE_COUNT, head.interfaces);
    output::put_byte(out, ZERO, 0);
    output::put16(out, MTU, head.mtu);
    output::put32(out, EXPIRY, head.expiry);
    output::put64(out, FIRST, head.first.0);
    output::put64(out, LAST, head.last.0);
}

// ---- infos

pub fn info(path: &[u8], k: u8) -> InfoField
    ensures { result ≡ record_info path.now k }
{
    let at = Path::HEAD + InfoField::SIZE * usize::from(k);
    let flags = octets::byte(path, at);
    let hops = octets::byte(path, at + InfoField::HOPS);
    let id = octets::be16(path, at + InfoField::ID);
    let timestamp = octets::be32(path, at + InfoField::TIMESTAMP);
    InfoField {
        construction: flags % 2 == 1,
        peering: flags / 2 % 2 == 1,
        hops,
        id,
        timestamp,
    }
}

// The bytes of an info, which the compiler moves as a whole.
pub fn info_octets(i: InfoField) -> [u8; InfoField::SIZE]
    ensures { result ≡ info_octets i }
{
    let flags = bit(i.construction) + 2 * bit(i.peering);
    let [i0, i1] = i.id.to_be_bytes();
    let [t0, t1, t2, t3] = i.timestamp.to_be_bytes();
    [flags, i.hops, i0, i1, t0, t1, t2, t3]
}

// ---- interfaces: all ASes, then all ids

fn ases_offset(path: &[u8]) -> usize
    ensures { (result ≡ ases_offset path.now) × (result < 2 ^ 13) }
{
    let infos = usize::from(octets::byte(path, Path::INFO_COUNT));
    let hops = usize::from(octets::byte(path, Path::HOP_COUNT));
    Path::HEAD + InfoField::SIZE * infos + HopField::SIZE * hops
}

fn ids_offset(path: &[u8]) -> usize
    ensures { (result ≡ ids_offset path.now) × (result < 2 ^ 14) }
{
    ases_offset(path) + PathInterface::AS * usize::from(octets::byte(path, Path::INTERFACE_COUNT))
}

pub fn interface(path: &[u8], k: u8) -> PathInterface
    ensures { result ≡ record_interface path.now k }
{
    let local = octets::be64(path, ases_offset(path) + PathInterface::AS * usize::from(k));
    let id = octets::be16(path, ids_offset(path) + PathInterface::ID * usize::from(k));
    PathInterface {
        local: IsdAsn(local),
        id,
    }
}
