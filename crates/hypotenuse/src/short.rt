// Roots of doubles of at most 17 digits, as half pixels have: a guess in floats is checked in whole numbers, and put right by one where it must be. Each
// function answers `None` where it has no root, so that nothing is claimed of floats.
ghost use Rattle.std.specs.Prelude.{◌≡◌, ◌+◌, ◌-◌, ◌*◌, ◌/◌, ◌%◌, ◌<◌, ◌≤◌, ◌^◌, IfSome};
ghost use Rattle.std.specs.Float.{binary64};
ghost use Rattle.std.specs.Float.Ieee.{of_bits};
ghost use Rattle.definitions.specs.Hypotenuse.{root_of};
ghost use Rattle.definitions.specs.Nearest.{pattern_magnitude};
ghost use Rattle.hypotenuse.specs.Short.{short_squares, Steps, NearestWhole};

use crate::layout::{LEADING, SIGN, exponent, significand};
use crate::root::square;

// The place of the last of 17 digits.
const LAST_PLACE: u64 = 1 << 36;
// The unit of a sum of squares.
const SQUARE_UNIT: u128 = 1 << 44;
// This less half the pattern of s is the pattern of 0.73 divided by the root of s, to 5 in 100.
const START: u64 = 6908488151547772928;

// A guess at the pattern of the root of the two doubles' squares: one divided by the root by two of Newton's steps, and from that the root by a step of the
// third order. Nothing is claimed of it.
fn guess(larger: u64, smaller: u64) -> Option<u64>
    requires { (larger ≤ 1038 * 2 ^ 52) × (smaller ≤ 1038 * 2 ^ 52) }
{
    let x = f64::from_bits(larger);
    let y = f64::from_bits(smaller);
    let s = x * x + y * y;
    if s.is_nan() {
        return None;
    }
    let a = f64::from_bits(START - f64::to_bits(s) % SIGN / 2);
    let b = a * (1.621486 - s * (a * a));
    let c = b * (1.889883 - s * (b * b));
    let r = s * c;
    let d = 1.0 - r * c;
    let near = r + r * d * (0.5 + 0.375 * d);
    if near.is_nan() {
        return None;
    }
    Some(f64::to_bits(near))
}

// How far b * b is below n + b, for n = m * 2^44, where b is near the root of n.
fn excess(m: u64, b: u64) -> Option<u64>
    requires { b < 2 ^ 53 }
    ensures { IfSome result (λ e. b * b + e ≡ m * 2 ^ 44 + b) }
{
    let most = u128::from(m) * SQUARE_UNIT + u128::from(b);
    let left = most.checked_sub(square(b))?;
    u64::try_from(left).ok()
}

// How many steps by one lead from b to the whole number nearest to the root, by the excess e over b * b.
fn steps(b: u64, e: u64) -> u64
    requires { b < 2 ^ 53 }
    ensures { Steps b e result }
{
    u64::from(e > 2 * b) + u64::from(e > 4 * b + 2)
}

// The whole number nearest to the root of m * 2^44, where that is 2^52 + fraction, or one more or less.
fn nearest_root(m: u64, fraction: u64) -> Option<u64>
    ensures { IfSome result (NearestWhole (m * 2 ^ 44)) }
{
    if !(2..=LEADING - 2).contains(&fraction) {
        return None;
    }
    let b = fraction + (LEADING - 1);
    let e = excess(m, b)?;
    if e == 0 || e > 6 * b + 6 {
        return None;
    }
    Some(b + steps(b, e))
}

// The sum of the two doubles' squares. The unit is 2^44 squares of the last place of a double whose exponent is that of the smaller and `up` more.
fn squares(larger: u64, smaller: u64, up: u64) -> u64
    requires { (smaller / 2 ^ 52 ≤ larger / 2 ^ 52) × (larger / 2 ^ 52 - smaller / 2 ^ 52 ≤ up) × (up ≤ 14) }
    ensures { result ≡ short_squares larger smaller * 2 ^ (28 - 2 * up) }
{
    let gap = exponent(larger) - exponent(smaller);
    let x = (significand(larger) / LAST_PLACE) << gap;
    let y = significand(smaller) / LAST_PLACE;
    (x * x + y * y) << (28 - 2 * up)
}

// The pattern of the double nearest to the root of two patterns' squares, where both have 17 digits at most and the root's exponent is at most 14 above that
// of the smaller.
pub fn short_root(larger: u64, smaller: u64) -> Option<u64>
    requires { (2 ^ 52 ≤ smaller) × (smaller ≤ larger) × (larger ≤ 1038 * 2 ^ 52) }
    ensures { IfSome result (λ r. (of_bits binary64 r ≡ root_of (pattern_magnitude larger * pattern_magnitude larger
        + pattern_magnitude smaller * pattern_magnitude smaller)) × (r < 2047 * 2 ^ 52)) }
{
    if larger % LAST_PLACE > 0 || smaller % LAST_PLACE > 0 {
        return None;
    }
    let near = guess(larger, smaller)?;
    let top = exponent(near);
    if top < exponent(larger) {
        return None;
    }
    let up = top - exponent(smaller);
    if up > 14 {
        return None;
    }
    let root = nearest_root(squares(larger, smaller, up), near % LEADING)?;
    Some((top - 1) * LEADING + root)
}
