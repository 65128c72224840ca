// Bytes, big-endian numbers, zeros and copies written into a lent slice at an offset. Every function is
// total, also where the offset is so large that the next one is no usize: what would be written past
// the end is dropped.
#![tactic(auto)]

ghost use Rattle.std.specs.Prelude.{◌≡◌, [], ◌∷◌, take, drop};
ghost use Rattle.spec.specs.Octets.{octets2, octets4, octets8};
ghost use Rattle.output.specs.Write.{written, zeroed};

// By a test and a store: by way of `put_bytes` paths on the wire are written and read 1.4 to 1.7 times slower.
pub fn put_byte(out: &mut [u8], at: usize, x: u8)
    ensures { out.new ≡ written out.old at (x ∷ []) }
{
    if at < out.len() {
        out[at] = x;
    }
}

pub fn put16(out: &mut [u8], at: usize, x: u16)
    ensures { out.new ≡ written out.old at (octets2 x) }
{
    put_bytes(out, at, &u16::to_be_bytes(x));
}

pub fn put32(out: &mut [u8], at: usize, x: u32)
    ensures { out.new ≡ written out.old at (octets4 x) }
{
    put_bytes(out, at, &u32::to_be_bytes(x));
}

pub fn put64(out: &mut [u8], at: usize, x: u64)
    ensures { out.new ≡ written out.old at (octets8 x) }
{
    put_bytes(out, at, &u64::to_be_bytes(x));
}

// Sets every byte from index `from` on to 0.
#[tactic(auto, using(crate::proofs::Copied::fill_within))]
pub fn zero(out: &mut [u8], from: usize)
    ensures { out.new ≡ zeroed out.old from }
{
    let from = from.min(out.len());
    out[from..].fill(0);
}

// Copies n bytes of `src` from index `from` on over those of `dst` from index `at` on, as far as both go.
#[tactic(auto, using(crate::proofs::Copied::copy_within))]
pub fn copy(src: &[u8], from: usize, n: usize, dst: &mut [u8], at: usize)
    ensures { dst.new ≡ written dst.old at (take n (drop from src.now)) }
{
    let from = from.min(src.len());
    let at = at.min(dst.len());
    let n = n.min(src.len() - from).min(dst.len() - at);
    dst[at..at + n].copy_from_slice(&src[from..from + n]);
}

#[tactic(auto, using(crate::proofs::Copied::put_within))]
fn put_bytes<const N: usize>(out: &mut [u8], at: usize, bytes: &[u8; N])
    ensures { out.new ≡ written out.old at bytes.now }
{
    let at = at.min(out.len());
    let n = N.min(out.len() - at);
    out[at..at + n].copy_from_slice(&bytes[..n]);
}
