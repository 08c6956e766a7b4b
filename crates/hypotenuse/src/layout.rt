// The layout of a double's bit pattern.
ghost use Rattle.std.specs.Prelude.{◌≡◌, ◌+◌, ◌/◌, ◌%◌, ◌^◌};

// The place of the exponent, and the leading digit of a significand.
pub const LEADING: u64 = 1 << 52;

// The place of the sign.
pub const SIGN: u64 = 1 << 63;

// The exponent of a pattern without its sign.
pub(crate) fn exponent(pattern: u64) -> u64
    ensures { result ≡ pattern / 2 ^ 52 }
{
    pattern / LEADING
}

// The significand of a normal double's pattern.
pub(crate) fn significand(pattern: u64) -> u64
    ensures { result ≡ pattern % 2 ^ 52 + 2 ^ 52 }
{
    pattern % LEADING + LEADING
}
