// The bytes of what is taken.
ghost use Rattle.std.specs.Prelude.{◌≡◌, false, ◌+◌, ◌*◌, ◌≤◌, ◌<◌, length, get_or, take, drop};
ghost use mathlib.Core.List.{◌∷◌, map, flat_map};
ghost use Rattle.spec.specs.Limits.{max_edges, max_entries, path_head_size, info_size, hop_size, path_size, meta_size, wire_hop_size, wire_size};
ghost use Rattle.spec.specs.Octets.{Bytes};
ghost use Rattle.spec.specs.Records.{info_octets, hop_octets};
ghost use Rattle.spec.specs.Router.{infos_in, hops_in};
ghost use Rattle.spec.specs.Wire.{wire_hop_count, hops_of_info, wire_infos_in, wire_hops_in, wire_info_octets, wire_hop_octets, writer_refuses, reader_refuses, wire_of, record_of};
ghost use Rattle.output.specs.Write.{written};

use crate::accept::{FIRST, LENGTH, info_count, lengths_in};
use spec::{HopField, InfoField, IsdAsn, Path};

// ---- copies

fn hop_in(src: &[u8], from: usize) -> [u8; HopField::SIZE]
    requires { from + hop_size ≤ length src.now }
    ensures { result ≡ take hop_size (drop from src.now) }
{
    let mut hop = [0u8; HopField::SIZE];
    hop.copy_from_slice(&src[from..from + HopField::SIZE]);
    hop
}

// By way of a local array, which the compiler moves as a whole: between two slices it tests whether they overlap, at every hop.
fn move_hop(src: &[u8], from: usize, dst: &mut [u8], to: usize)
    requires { (from + hop_size ≤ length src.now) × (to + hop_size ≤ length dst.old) }
    ensures { dst.new ≡ written dst.old to (take hop_size (drop from src.now)) }
{
    dst[to..to + HopField::SIZE].copy_from_slice(&hop_in(src, from));
}

// An info's flags, a byte, and its id and timestamp.
fn put_info(src: &[u8], from: usize, second: u8, dst: &mut [u8], to: usize)
    requires { (from + info_size ≤ length src.now) × (to + info_size ≤ length dst.old) }
    ensures { dst.new ≡ written dst.old to (get_or src.now from 0 ∷ second ∷ take 6 (drop (from + 2) src.now)) }
{
    output::put_byte(dst, to, src[from]);
    output::put_byte(dst, to + InfoField::HOPS, second);
    dst[to + InfoField::ID..to + InfoField::SIZE].copy_from_slice(
        &src[from + InfoField::ID..from + InfoField::SIZE],
    );
}

// ---- on the wire

// A record that the writer takes.
#[derive(Clone, Copy)]
pub(crate) struct TakenRecord<'a> {
    pub path: &'a [u8],
    pub ghost bytes: { Bytes path.now },
    pub ghost taken: { writer_refuses path.now ≡ false },
}

impl TakenRecord<'_> {
    fn infos(&self) -> usize
        ensures { (result ≡ get_or self.now.path.now 0 0) × (result < 256) }
    {
        usize::from(self.path[Path::INFO_COUNT])
    }

    fn hops(&self) -> usize
        ensures { (result ≡ get_or self.now.path.now 1 0) × (result < 256) }
    {
        usize::from(self.path[Path::HOP_COUNT])
    }

    // The hop count of info k, or 0 where there is no such info.
    fn hops_of(&self, k: usize) -> u32
        requires { k < max_edges }
        ensures { (result ≡ get_or (map hops_of_info (infos_in self.now.path.now)) k 0) × (result < 64) }
    {
        if k < self.infos() {
            return u32::from(self.path[Path::HEAD + InfoField::SIZE * k + InfoField::HOPS]);
        }
        0
    }

    fn put_infos(&self, out: &mut [u8])
        requires { wire_size ≤ length out.old }
        ensures { out.new ≡ written out.old meta_size (flat_map wire_info_octets (infos_in self.now.path.now)) }
    {
        for k in 0..self.infos() {
            let from = Path::HEAD + InfoField::SIZE * k;
            put_info(self.path, from, 0, out, Path::META + InfoField::WIRE * k);
        }
    }

    fn put_hops(&self, out: &mut [u8], at: usize)
        requires { at + max_edges * max_entries * wire_hop_size ≤ length out.old }
        ensures { out.new ≡ written out.old at (flat_map wire_hop_octets (hops_in self.now.path.now)) }
    {
        let base = Path::HEAD + InfoField::SIZE * self.infos();
        for k in 0..self.hops() {
            let to = at + HopField::WIRE * k;
            output::put_byte(out, to, 0);
            move_hop(
                self.path,
                base + HopField::SIZE * k,
                out,
                to + HopField::FLAGS,
            );
        }
    }

    // How many bytes it has there.
    pub(crate) fn put(&self, out: &mut [u8]) -> usize
        requires { wire_size ≤ length out.old }
        ensures { (result ≡ length (wire_of self.now.path.now)) × (out.new ≡ written out.old 0 (wire_of self.now.path.now)) }
    {
        let first = self.hops_of(0);
        let second = self.hops_of(1);
        let third = self.hops_of(2);
        let at = Path::META + InfoField::WIRE * self.infos();
        output::put32(out, 0, first * FIRST + second * LENGTH + third);
        self.put_infos(out);
        self.put_hops(out, at);
        at + HopField::WIRE * self.hops()
    }
}

// ---- in a record

// A path on the wire that the reader takes.
#[derive(Clone, Copy)]
pub(crate) struct TakenWire<'a> {
    pub wire: &'a [u8],
    pub ghost bytes: { Bytes wire.now },
    pub ghost taken: { reader_refuses wire.now ≡ false },
}

impl TakenWire<'_> {
    fn put_infos(&self, out: &mut [u8])
        requires { path_size ≤ length out.old }
        ensures { out.new ≡ written out.old path_head_size (flat_map info_octets (wire_infos_in self.now.wire.now)) }
    {
        let lengths = lengths_in(self.wire);
        for k in 0..info_count(self.wire) {
            let from = Path::META + InfoField::WIRE * k;
            put_info(
                self.wire,
                from,
                lengths[k],
                out,
                Path::HEAD + InfoField::SIZE * k,
            );
        }
    }

    fn put_hops(&self, m: usize, out: &mut [u8], at: usize)
        requires { (m ≡ wire_hop_count self.now.wire.now) × (at + max_edges * max_entries * hop_size ≤ length out.old) }
        ensures { out.new ≡ written out.old at (flat_map hop_octets (wire_hops_in self.now.wire.now)) }
    {
        let base = Path::META + InfoField::WIRE * info_count(self.wire);
        for k in 0..m {
            let from = base + HopField::WIRE * k;
            move_hop(
                self.wire,
                from + HopField::FLAGS,
                out,
                at + HopField::SIZE * k,
            );
        }
    }

    // How many bytes the record has.
    pub(crate) fn put(&self, out: &mut [u8]) -> usize
        requires { path_size ≤ length out.old }
        ensures { (result ≡ length (record_of self.now.wire.now)) × (out.new ≡ written out.old 0 (record_of self.now.wire.now)) }
    {
        let lengths = lengths_in(self.wire);
        let m = usize::from(lengths[0]) + usize::from(lengths[1]) + usize::from(lengths[2]);
        let n = info_count(self.wire);
        let at = Path::HEAD + InfoField::SIZE * n;
        let none = IsdAsn(0);
        records::put_head(out, Path::new(n as u8, m as u8, 0, 0, 0, none, none));
        self.put_infos(out);
        self.put_hops(m, out, at);
        at + HopField::SIZE * m
    }
}
