// Whole roots of numbers of 110 bits, in bounded time: a good guess is made exact by at most five steps, and where these do not reach the root the library
// works it out digit by digit.
ghost use Rattle.std.specs.Prelude.{◌≡◌, ◌+◌, ◌*◌, ◌<◌, ◌≤◌, ◌^◌};
ghost use Rattle.hypotenuse.specs.Roots.{IsRoot};

// The steps start so far below the guess.
const MARGIN: u64 = 32;
// They are tried where the number is above the start's square by less than this.
const MAX_REST: u128 = 1 << 62;

// t * t
pub fn square(t: u64) -> u128
    ensures { result ≡ t * t }
{
    u128::from(t) * u128::from(t)
}

// The number root * root + rest.
#[derive(Clone, Copy)]
pub struct Rooted {
    pub root: u64,
    pub rest: u64,
}

// The whole root of f, by the library.
fn digit_root(f: u128) -> Rooted
    requires { f < 2 ^ 110 }
    ensures { IsRoot f result.root result.rest }
{
    let root = f.isqrt();
    Rooted {
        root: root as u64,
        rest: (f - root * root) as u64,
    }
}

// A step of Newton's method in whole numbers, from a root that is too small. It goes one less than the quotient says, which may be one too many.
fn division_step(root: u64, rest: u64) -> Rooted
    requires { (2 ^ 52 ≤ root) × (root < 2 ^ 55) × (rest < 2 ^ 63) }
    ensures { (result.root * result.root + result.rest ≡ root * root + rest) × (result.root < 2 ^ 56) }
{
    let steps = rest / (2 * root);
    if steps == 0 {
        return Rooted { root, rest };
    }
    let fewer = steps - 1;
    Rooted {
        root: root + fewer,
        rest: rest - fewer * (2 * root + fewer),
    }
}

// At most four steps by one, from a root that is too small.
fn single_steps(from: Rooted) -> Rooted
    requires { from.root < 2 ^ 56 }
    ensures { (result.root * result.root + result.rest ≡ from.root * from.root + from.rest) × (result.root < 2 ^ 57) }
{
    let mut root = from.root;
    let mut rest = from.rest;
    for _ in 0..4u64 {
        let gap = 2 * root + 1;
        if rest < gap {
            return Rooted { root, rest };
        }
        rest -= gap;
        root += 1;
    }
    Rooted { root, rest }
}

// The whole root of f, whatever the guess. One that is at most 32 away makes it quick.
pub fn floor_root(f: u128, guess: u64) -> Rooted
    requires { (f < 2 ^ 110) × (2 ^ 53 ≤ guess) × (guess < 2 ^ 55) }
    ensures { IsRoot f result.root result.rest }
{
    let low = guess - MARGIN;
    if let Some(rest) = f.checked_sub(square(low))
        && rest < MAX_REST
    {
        let found = single_steps(division_step(low, rest as u64));
        if found.rest <= 2 * found.root {
            return found;
        }
    }
    digit_root(f)
}
