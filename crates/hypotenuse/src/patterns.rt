// Doubles by their bit patterns without the sign: 52 bits of fraction, and above them the exponent. A larger pattern is that of a larger double.
ghost use Rattle.std.specs.Prelude.{◌≡◌, ◌+◌, ◌-◌, ◌*◌, ◌/◌, ◌%◌, ◌<◌, ◌≤◌, ◌^◌, T};
ghost use Rattle.std.specs.Float.{binary64};
ghost use Rattle.std.specs.Float.Ieee.{of_bits};
ghost use Rattle.definitions.specs.Hypotenuse.{root_of};
ghost use Rattle.definitions.specs.Nearest.{pattern_magnitude};
ghost use Rattle.laws.specs.FloatLaws.Patterns.{pattern_of};
ghost use Rattle.laws.specs.FloatLaws.PatternOrder.{pattern_in_range};
ghost use Rattle.hypotenuse.specs.Rounding.{Rounded};

use crate::layout::{LEADING, SIGN, exponent, significand};
use crate::root::{floor_root, square};
use crate::short::short_root;

// The pattern of 2^-64.
const LEAST: u64 = 959 << 52;
// The pattern of 2^15.
const MOST: u64 = 1038 << 52;
// From here on a root has 55 digits.
const LONG_ROOT: u64 = 1 << 54;
// Exponents that are further apart leave the larger double as it is.
const MAX_GAP: u64 = 27;

// The pattern of x, and for a NaN a number above every pattern.
pub fn bits_of(x: f64) -> u64
    ensures { result ≡ pattern_of x }
{
    if x.is_nan() {
        return SIGN;
    }
    f64::to_bits(x) % SIGN
}

// Whether a pattern is that of zero, or of a magnitude from 2^-64 to 2^15.
pub fn in_range(b: u64) -> bool
    ensures { result ≡ pattern_in_range b }
{
    b == 0 || (LEAST..=MOST).contains(&b)
}

// A guess at twice the root of the two doubles' squares, in units of the last place of the larger, by two of Halley's steps in floats. All that is claimed of
// it is its size.
fn guess(larger: u64, smaller: u64) -> u64
    requires { (larger ≤ 1038 * 2 ^ 52) × (smaller ≤ 1038 * 2 ^ 52) }
    ensures { (2 ^ 53 ≤ result) × (result < 2 ^ 55) }
{
    let x = f64::from_bits(larger);
    let y = f64::from_bits(smaller);
    let s = x * x + y * y;
    // The larger of two lines is within 3 in 100 of the root.
    let a = x + y * 0.125;
    let b = x * 0.875 + y * 0.53;
    let first = a.max(b);
    let p = first * first;
    let second = first * (p + 3.0 * s) / (3.0 * p + s);
    let q = second * second;
    let third = second * (q + 3.0 * s) / (3.0 * q + s);
    if third.is_nan() {
        return LONG_ROOT;
    }
    let bits = f64::to_bits(third);
    let digits = significand(bits);
    if let Some(above) = exponent(bits).checked_sub(exponent(larger))
        && above <= 1
    {
        return 2 * digits + 2 * digits * above;
    }
    // The root of a power of two and a far smaller number may come out a little below that power.
    2 * significand(larger)
}

// The pattern of the double nearest to a root, ties to the even significand. The root is t halves of 2^k, and a little more where `extra` is not 0; t has 54
// or 55 digits. With one digit more for that little, the last two or three digits go. What is added before carries into the digit in front of them where they
// are above a half, or a half and that digit is odd.
fn rounded_pattern(k: u64, t: u64, extra: u64) -> u64
    requires { (2 ^ 53 ≤ t) × (t < 2 ^ 55) × (k < 1040) }
    ensures { (t < 2 ^ 54 → Rounded k (t / 2) (t % 2) 1 extra result) × (2 ^ 54 ≤ t → Rounded (k + 1) (t / 4) (t % 4) 2 extra result) }
{
    let digits = 2 * t + u64::from(extra > 0);
    if t < LONG_ROOT {
        k * LEADING + (digits + 1 + t / 2 % 2) / 4
    } else {
        (k + 1) * LEADING + (digits + 3 + t / 4 % 2) / 8
    }
}

// A number without its lowest digits, and these digits.
#[derive(Clone, Copy)]
struct Cut {
    kept: u128,
    lost: u64,
}

// w without its lowest n bits.
fn shifted(w: u128, n: u64) -> Cut
    requires { n ≤ 54 }
    ensures { (result.kept * 2 ^ n + result.lost ≡ w) × (result.lost < 2 ^ n) }
{
    Cut {
        kept: w >> n,
        lost: (w % (1 << n)) as u64,
    }
}

// The pattern of the double nearest to the root of (x * 2^k)^2 + (y * 2^(k - gap))^2. The squares are taken of half units, and the smaller one is shifted to
// the larger one's unit.
fn near_pattern(k: u64, x: u64, y: u64, gap: u64, start: u64) -> u64
    requires { (2 ^ 52 ≤ x) × (x < 2 ^ 53) × (y < 2 ^ 53) × (gap ≤ 27) × (gap ≤ k) × (k < 1040) × (2 ^ 53 ≤ start) × (start < 2 ^ 55) }
    ensures { (of_bits binary64 result ≡ root_of (x * 2 ^ k * (x * 2 ^ k) + y * 2 ^ (k - gap) * (y * 2 ^ (k - gap)))) × (result < 2047 * 2 ^ 52) }
{
    let cut = shifted(square(2 * y), 2 * gap);
    let found = floor_root(square(2 * x) + cut.kept, start);
    rounded_pattern(k, found.root, found.rest + cut.lost)
}

// The pattern of the double nearest to the root of two patterns' squares. Where the exponents are more than MAX_GAP apart it is the larger: the root is less
// than half a unit above it. Doubles of few digits come first, the short way.
fn root_pattern(larger: u64, smaller: u64) -> u64
    requires larger_in_range { T (pattern_in_range larger) }
    requires smaller_in_range { T (pattern_in_range smaller) }
    requires smaller_within { smaller ≤ larger }
    ensures { (of_bits binary64 result ≡ root_of (pattern_magnitude larger * pattern_magnitude larger
        + pattern_magnitude smaller * pattern_magnitude smaller)) × (result < 2047 * 2 ^ 52) }
{
    if larger == 0 {
        return 0;
    }
    let top = exponent(larger);
    let gap = top - exponent(smaller);
    if gap > MAX_GAP {
        return larger;
    }
    if let Some(short) = short_root(larger, smaller) {
        return short;
    }
    let start = guess(larger, smaller);
    near_pattern(
        top - 1,
        significand(larger),
        significand(smaller),
        gap,
        start,
    )
}

// The same of two patterns in any order.
pub fn hypotenuse_pattern(a: u64, b: u64) -> u64
    requires a_in_range { T (pattern_in_range a) }
    requires b_in_range { T (pattern_in_range b) }
    ensures { (of_bits binary64 result
        ≡ root_of (pattern_magnitude a * pattern_magnitude a + pattern_magnitude b * pattern_magnitude b)) × (result < 2047 * 2 ^ 52) }
{
    root_pattern(a.max(b), a.min(b))
}
