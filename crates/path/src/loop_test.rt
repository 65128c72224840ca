// Whether a path is Loop: some AS stands three times among those of its interfaces.
ghost use Rattle.std.specs.Prelude.{◌≡◌, ◌+◌, ◌-◌, ◌*◌, ◌^◌, ◌≤◌, ◌<◌, length, ltb};
ghost use Rattle.spec.specs.Octets.{be64};
ghost use Rattle.path.specs.Thrice.{numbers_in, times_in, some_thrice, Run};

use crate::within;

// x is among the `count` numbers from `at` on.
fn is_among(out: &[u8], at: usize, count: usize, x: u64) -> bool
    requires count_in_bounds { at + 8 * count ≤ length out.now }
    requires count_bound { at + 8 * count < 2 ^ 32 }
    ensures { result ≡ ltb 0 (times_in x (numbers_in out.now at count)) }
{
    for k in 0..count {
        if within::read64(out, at + 8 * k) == x {
            return true;
        }
    }
    false
}

// x stands twice among them.
fn is_repeated(out: &[u8], at: usize, count: usize, x: u64) -> bool
    requires count_in_bounds { at + 8 * count ≤ length out.now }
    requires count_bound { at + 8 * count < 2 ^ 32 }
    ensures { result ≡ ltb 1 (times_in x (numbers_in out.now at count)) }
{
    for k in 0..count {
        if within::read64(out, at + 8 * k) == x {
            return is_among(out, at + 8 * k + 8, count - k - 1, x);
        }
    }
    false
}

// How many of the first two numbers are x, of which the first is.
fn run_length(out: &[u8], at: usize, count: usize, x: u64) -> usize
    requires count_in_bounds { at + 8 * count ≤ length out.now }
    requires count_bound { at + 8 * count < 2 ^ 32 }
    requires count_nonzero { 0 < count }
    requires x_value { x ≡ be64 out.now at }
    ensures { Run out.now at count x result }
{
    if count < 2 {
        return 1;
    }
    if within::read64(out, at + 8) == x {
        return 2;
    }
    1
}

// With `run` more, x stands three times.
fn is_third(out: &[u8], at: usize, count: usize, x: u64, run: usize) -> bool
    requires count_in_bounds { at + 8 * count ≤ length out.now }
    requires count_bound { at + 8 * count < 2 ^ 32 }
    requires run_nonzero { (0 < run) × (run ≤ 2) }
    ensures { result ≡ ltb (2 - run) (times_in x (numbers_in out.now at count)) }
{
    if run < 2 {
        return is_repeated(out, at, count, x);
    }
    is_among(out, at, count, x)
}

// Some number stands three times among them. Where two in a row are the same, the second needs no search: the step is one or two, so this is no `for`.
pub(crate) fn is_loop(out: &[u8], at: usize, count: usize) -> bool
    requires count_in_bounds { at + 8 * count ≤ length out.now }
    requires count_bound { at + 8 * count < 2 ^ 32 }
    ensures { result ≡ some_thrice (numbers_in out.now at count) }
{
    let mut next = at;
    let mut left = count;
    while left > 0 {
        let x = within::read64(out, next);
        let run = run_length(out, next, left, x);
        next += 8 * run;
        left -= run;
        if is_third(out, next, left, x, run) {
            return true;
        }
    }
    false
}
