// The marks of the regions: odd where one is anchored. A pass keeps more in the other bits.
ghost use Rattle.std.specs.Prelude.{◌≡◌, ◌-◌, ◌%◌, ◌≤◌, length, get_or, eqb};

// Whether region r is anchored.
pub fn is_anchored(marks: &[u16], r: u32) -> bool
    requires { (1 ≤ r) × (r ≤ length marks.now) }
    ensures { result ≡ eqb (get_or marks.now (r - 1) 0 % 2) 1 }
{
    marks[r as usize - 1] % 2 == 1
}
