// Words, and numbers in base ten and in hex, from a place of a lent buffer on. Each function answers the
// place after what it wrote.
ghost use Rattle.std.specs.Prelude.{◌≡◌, ◌++◌, ◌+◌, ◌^◌, ◌≤◌, ◌<◌, length};
ghost use Rattle.spec.specs.Printed.{decimal, hex};
ghost use Rattle.output.specs.Write.{written};
ghost use Rattle.path.specs.Places.{Wrote};
ghost use Rattle.printed.specs.Digits.{glyph_of, digits};

fn glyph(d: u64) -> u8
    requires { d < 16 }
    ensures { result ≡ glyph_of d }
{
    if d < 10 {
        return b'0' + d as u8;
    }
    b'a' + (d - 10) as u8
}

// The last `count` digits, from the last to the first.
fn put_digits(out: &mut [u8], at: usize, base: u64, count: usize, n: u64)
    requires count_bound { at + count < 2 ^ 63 }
    requires base_nonzero { (0 < base) × (base ≤ 16) }
    ensures { out.new ≡ written out.old at (digits base count n) }
{
    let mut rest = n;
    for i in (0..count).rev() {
        output::put_byte(out, at + i, glyph(rest % base));
        rest /= base;
    }
}

// How many digits a number has in base ten.
fn width(n: u64) -> usize
    ensures { (result ≡ length (decimal n)) × (result ≤ 20) }
{
    let mut k: usize = 1;
    let mut rest = n;
    while 10 <= rest {
        rest /= 10;
        k += 1;
    }
    k
}

pub(crate) fn put_decimal(out: &mut [u8], at: usize, n: u64) -> usize
    requires { at < 2 ^ 62 }
    ensures { Wrote out.old at (decimal n) out.new result × (result ≤ at + 20) }
{
    let count = width(n);
    put_digits(out, at, 10, count, n);
    at + count
}

pub(crate) fn put_hex(out: &mut [u8], at: usize, count: usize, n: u64) -> usize
    requires { (at < 2 ^ 62) × (count ≤ 16) }
    ensures { Wrote out.old at (hex count n) out.new result × (result ≡ at + count) }
{
    put_digits(out, at, 16, count, n);
    at + count
}

pub(crate) fn put_word(out: &mut [u8], at: usize, word: &[u8]) -> usize
    requires { at < 2 ^ 62 }
    ensures { Wrote out.old at word.now out.new result }
{
    let n = word.len();
    output::copy(word, 0, n, out, at);
    at + n
}

// A word, and a number in base ten after it.
pub(crate) fn put_item(out: &mut [u8], at: usize, word: &[u8], n: u64) -> usize
    requires { at + length word.now < 2 ^ 62 }
    ensures { Wrote out.old at (word.now ++ decimal n) out.new result × (result ≤ at + length word.now + 20) }
{
    let next = put_word(out, at, word);
    put_decimal(out, next, n)
}
