// The hypotenuse, correctly rounded: the double nearest to the root of the sum of two squares, ties to the even significand. It is worked out from the bits,
// in bounded time.

#![tactic(auto)]

ghost use Rattle.std.specs.Prelude.{◌≡◌};
ghost use Rattle.definitions.specs.Hypotenuse.{hypot_number, hypot_value};
ghost use Rattle.hypotenuse.specs.Contract.{number_of, value_of};

pub mod layout;
mod patterns;
mod root;
mod short;

// The hypotenuse of x and y, whatever their signs; none where one of them is a NaN, or not zero and not of a magnitude from 2^-64 to 2^15. The hypotenuse of
// zeros is +0.
pub fn hypotenuse(x: f64, y: f64) -> Option<f64>
    ensures { (number_of result ≡ hypot_number x y) × (value_of result ≡ hypot_value x y) }
{
    let a = patterns::bits_of(x);
    let b = patterns::bits_of(y);
    if patterns::in_range(a) && patterns::in_range(b) {
        Some(f64::from_bits(patterns::hypotenuse_pattern(a, b)))
    } else {
        None
    }
}
