// A number of a sheet in shortest form, as bytes in a lent list; and the types of numbers that a sheet's lists have.

#![tactic(auto)]

ghost use Rattle.std.specs.Prelude.{◌≡◌, ℕ, ◌+◌, ◌%◌, ◌<◌, length};
ghost use Rattle.results.specs.Shortest.{shortest};
ghost use Rattle.byte_writer.specs.Contract.{HasRoom, Appends};

use byte_writer::Writer;

// An entry of a list that is written: cells are bytes, and all else has 64 bits.
pub trait Entry: Copy {
    // The number that it is.
    ghost value: { Self → ℕ };

    fn value(self) -> u64
        ensures { result ≡ value self };
}

impl Entry for u8 {
    ghost value = { λ n. n };

    fn value(self) -> u64 {
        u64::from(self)
    }
}

impl Entry for u64 {
    ghost value = { λ n. n };

    fn value(self) -> u64 {
        self
    }
}

// The lowest group of a number, to be continued.
fn continued(n: u64) -> u8
    ensures { result ≡ 128 + n % 128 }
{
    128 + (n % 128) as u8
}

// A last group.
fn last(n: u64) -> u8
    requires { n < 128 }
    ensures { result ≡ n }
{
    n as u8
}

// Appends a number in shortest form.
#[inline(always)]
pub fn put_shortest(w: &mut Writer, n: u64)
    requires { HasRoom w.old (length (shortest n)) }
    ensures { Appends w.old (shortest n) w.new }
{
    let mut left = n;
    // Kept: a range over the groups would take their count from `result_writer::group_count`, which stands above this crate, and divide the number all the
    // same.
    while 128 <= left {
        w.put_byte(continued(left));
        left /= 128;
    }
    w.put_byte(last(left));
}
