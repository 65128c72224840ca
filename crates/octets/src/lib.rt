// Big-endian numbers in a slice of bytes, read at an offset. Every function is total, also where the
// offset is so large that the next one is no usize: a byte past the end reads as 0.
#![tactic(auto)]

ghost use Rattle.std.specs.Prelude.{◌≡◌, ◌+◌, ◌++◌, get_or, take, drop, replicate};
ghost use Rattle.spec.specs.Octets.{be16, be32, be64};

// The byte at `at`.
pub fn byte(s: &[u8], at: usize) -> u8
    ensures { result ≡ get_or s.now at 0 }
{
    s.get(at).copied().unwrap_or(0)
}

#[tactic(auto, using(crate::proofs::Numbers::number16))]
pub fn be16(s: &[u8], at: usize) -> u16
    ensures { result ≡ be16 s.now at }
{
    u16::from_be_bytes(bytes_at(s, at))
}

#[tactic(auto, using(crate::proofs::Numbers::number32))]
pub fn be32(s: &[u8], at: usize) -> u32
    ensures { result ≡ be32 s.now at }
{
    u32::from_be_bytes(bytes_at(s, at))
}

#[tactic(auto, using(crate::proofs::Numbers::number64))]
pub fn be64(s: &[u8], at: usize) -> u64
    ensures { result ≡ be64 s.now at }
{
    u64::from_be_bytes(bytes_at(s, at))
}

// ---- at an offset from a place, where the sum may be no usize

// The byte `i` past `at`.
pub fn byte_past(s: &[u8], at: usize, i: u8) -> u8
    ensures { result ≡ get_or s.now (at + i) 0 }
{
    byte(s, at.saturating_add(usize::from(i)))
}

#[tactic(auto, using(crate::proofs::Numbers::be16_cut))]
pub fn be16_past(s: &[u8], at: usize, i: u8) -> u16
    ensures { result ≡ be16 s.now (at + i) }
{
    be16(s, at.saturating_add(usize::from(i)))
}

#[tactic(auto, using(crate::proofs::Numbers::be32_cut))]
pub fn be32_past(s: &[u8], at: usize, i: u8) -> u32
    ensures { result ≡ be32 s.now (at + i) }
{
    be32(s, at.saturating_add(usize::from(i)))
}

// The N bytes from `at` on.
fn bytes_at<const N: usize>(s: &[u8], at: usize) -> [u8; N]
    ensures { result ≡ take N (drop at s.now ++ replicate N 0) }
{
    let Some(rest) = s.get(at..) else {
        return [0; N];
    };
    if let Some(bytes) = rest.first_chunk() {
        return *bytes;
    }
    let mut bytes = [0; N];
    bytes[..rest.len()].copy_from_slice(rest);
    bytes
}
