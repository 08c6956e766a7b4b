// The widths of boundaries as the doubles that their bits are, and which boundary is twice as wide as another.
ghost use Rattle.std.specs.Prelude.{◌≡◌};
ghost use Rattle.geometry.specs.Widths.{HasWidth, width_of, is_twice_as_wide};

use crate::boundaries::width_at;

// The width of boundary i.
pub fn width_of(boundaries: &[u64], i: usize) -> f64
    requires { HasWidth boundaries.now i }
    ensures { result ≡ width_of boundaries.now i }
{
    f64::from_bits(width_at(boundaries, i))
}

// Whether boundary i is twice as wide as k, or wider.
pub fn is_twice_as_wide(boundaries: &[u64], i: usize, k: usize) -> bool
    requires { HasWidth boundaries.now i × HasWidth boundaries.now k }
    ensures { result ≡ is_twice_as_wide boundaries.now i k }
{
    2.0 * width_of(boundaries, k) <= width_of(boundaries, i)
}
