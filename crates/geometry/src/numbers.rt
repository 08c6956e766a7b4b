// Doubles of whole numbers, the lesser and the greater of two doubles, and the hypotenuse by its value.
ghost use Rattle.std.specs.Prelude.{◌≡◌, ◌≤◌};
ghost use Rattle.definitions.specs.Geometry.{float};
ghost use Rattle.definitions.specs.Hypotenuse.{hypot_value};
ghost use Rattle.definitions.specs.RampGeometry.{difference, fmin, fmax};
ghost use Rattle.span_geometry.specs.Shapes.{max_pixel};

use hypotenuse::hypotenuse;

// The double of a whole number: of one so small, exactly that number.
pub fn float(n: u64) -> f64
    requires { n ≤ max_pixel }
    ensures { result ≡ float n }
{
    n as f64
}

pub fn difference(m: u64, n: u64) -> f64
    requires { (m ≤ max_pixel) × (n ≤ max_pixel) }
    ensures { result ≡ difference m n }
{
    float(m) - float(n)
}

// The lesser of two, the first where neither is less.
// Kept: `fmin` and `fmax`: of 0.0 and -0.0 the library's `min` and `max` may give either, and of a NaN and a number the number. The definitions give the first.
pub fn fmin(a: f64, b: f64) -> f64
    ensures { result ≡ fmin a b }
{
    if b < a { b } else { a }
}

// The greater of two, the first where neither is greater.
pub fn fmax(a: f64, b: f64) -> f64
    ensures { result ≡ fmax a b }
{
    if a < b { b } else { a }
}

// The hypotenuse, and 0 where it is refused. Coordinates of a map are never so far apart.
pub(crate) fn hypot(x: f64, y: f64) -> f64
    ensures { result ≡ hypot_value x y }
{
    hypotenuse(x, y).unwrap_or(0.0)
}
