// Differences, quotients and tests of signed numbers.
ghost use Rattle.std.specs.Prelude.{◌≡◌, ◌-◌, ◌≤◌, ◌<◌};
ghost use Rattle.std.specs.Int.Signed.{non_neg, shr_z};
ghost use Rattle.definitions.specs.Spans.{diff, strictly_opposite};
ghost use Rattle.span_geometry.specs.Shapes.{max_pixel};

// m - n, of either sign.
pub fn difference(m: u64, n: u64) -> i64
    requires { (m ≤ max_pixel) × (n ≤ max_pixel) }
    ensures { result ≡ diff m n }
{
    m as i64 - n as i64
}

pub fn not_negative(z: i64) -> bool
    ensures { result ≡ non_neg z }
{
    z >= 0
}

pub fn strictly_opposite(left: i64, right: i64) -> bool
    ensures { result ≡ strictly_opposite left right }
{
    ((left < 0) & (right > 0)) | ((left > 0) & (right < 0))
}

// The quotient by a positive number, rounded down.
pub(crate) fn div_euclid(n: i64, d: u64) -> i64
    requires { (0 < d) × (d ≤ max_pixel) }
    ensures { result ≡ shr_z n d }
{
    n.div_euclid(d as i64)
}
