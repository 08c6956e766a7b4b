// Replays stored sheets. Standard input is one sheet after the other, each behind its length in three bytes, the lesser first. For each it writes what
// `keptlist` prints.

#![tactic(auto)]

ghost use Rattle.std.specs.Prelude.{◌≤◌, length};

use sheet_answer::{INPUT_ROOM, input_room, keptlist, output_room};
use std::io;
use std::io::{Read, Write};
use streams::read_full;

// Reading ends after so many sheets at the latest.
const SHEETS: u64 = 65536;

// As many bytes as `keptlist` reads at most.
fn length_of(opening: &[u8; 3]) -> usize
    ensures { result ≤ 65537 }
{
    let [low, middle, high] = *opening;
    (u32::from_le_bytes([low, middle, high, 0]) as usize).min(INPUT_ROOM)
}

// Reads a sheet as long as the list, and writes what is printed for it.
fn answer_to<R: Read, W: Write>(input: &mut R, output: &mut W, sheet: &mut [u8]) -> io::Result<()> {
    let count = read_full(input, &mut *sheet)?;
    let mut out = output_room();
    let end = keptlist(&sheet[0..count], &mut out);
    output.write_all(&out[..end])
}

// Replays the next sheet, if there is one.
fn replay<R: Read, W: Write>(input: &mut R, output: &mut W, sheet: &mut [u8]) -> io::Result<bool>
    requires { 65537 ≤ length sheet.old }
{
    let mut opening = [0u8; 3];
    if read_full(input, &mut opening)? < 3 {
        return Ok(false);
    }
    let written = length_of(&opening);
    answer_to(input, output, &mut sheet[0..written])?;
    Ok(true)
}

// Kept: the loop of `replay_cases` over another reading: one function of both takes a closure for a turn, and that of `replay_cases` needs clauses of its own.
fn replay_all<R: Read, W: Write>(input: &mut R, output: &mut W, sheet: &mut [u8]) -> io::Result<()>
    requires { 65537 ≤ length sheet.old }
{
    for _ in 0..SHEETS {
        if !replay(input, output, &mut *sheet)? {
            return Ok(());
        }
    }
    Ok(())
}

fn main(rt: HostRuntime) -> io::Result<()> {
    let mut input = rt.stdin();
    let mut output = rt.stdout();
    let mut sheet = input_room();
    replay_all(&mut input, &mut output, &mut sheet)
}
