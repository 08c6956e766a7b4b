// Bytes into a program: reading until a list is full. What the system gives no contract can say.

#![tactic(auto)]

ghost use Rattle.std.specs.Prelude.{◌≤◌, ◌<◌, length, take, IfOk};
ghost use Rattle.std.specs.Io.KnownBytes.{Consumes, IsAtEnd};

use std::io;
use std::io::Read;

// Fills the list as far as the input goes, and answers how many bytes there were: fewer than the list has only where the input ended.
pub fn read_full<R: Read>(input: &mut R, list: &mut [u8]) -> io::Result<usize>
    ensures within { IfOk result (λ n. n ≤ length list.new) }
    ensures bytes { IfOk result (λ n. Consumes (R.remaining input.old) (R.remaining input.new) (take n list.new)) }
    ensures ended { IfOk result (λ n. n < length list.new → IsAtEnd (R.remaining input.new)) }
{
    let mut count = 0;
    // Kept: a read may give fewer bytes than there is room for, so that no range gives the turns; and `read_exact` does not say how many bytes there were.
    while count < list.len() {
        let got = input.read(&mut list[count..])?;
        if got == 0 {
            break;
        }
        count += got;
    }
    Ok(count)
}
