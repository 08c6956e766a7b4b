// Replays stored answers of the hypotenuse. Each line of standard input is 'X Y NUMBER ROOT': the bits of two doubles, 0 or 13, and the bits of the value. It
// writes how many of the answers are ours, and before that the numbers of the first lines that have another.

#![tactic(auto)]

ghost use Rattle.std.specs.Prelude.{◌≡◌, ◌+◌, ◌-◌, ◌*◌, ◌<◌, ◌≤◌, ◌^◌, [], length, IfOk, IfSome};
ghost use Rattle.std.specs.Float.{binary64};
ghost use Rattle.std.specs.Float.Ieee.{of_bits};
ghost use Rattle.definitions.specs.Scan.{bit};
ghost use Rattle.hypotenuse_replay.specs.Lines.{digit_of, digits_after, number_of_bits, root_of_bits, is_answer_line, lines_in, answers_in};

use hypotenuse::layout::SIGN;
use refusals::Cause;
use std::io;
use std::io::{Read, Write};
use streams::read_full;

// The pattern of the infinity; larger ones are NaNs.
const INFINITY: u64 = 2047 << 52;
// A line whose number has one digit.
const SHORTEST_LINE: usize = 52;
// A line whose number has nine.
const LONGEST_LINE: usize = 60;
// So many lines with another answer are listed.
const LISTED: u64 = 8;
// Reading ends after so many turns at the latest.
const TURNS: u64 = 1 << 20;

// A digit from 0 to 9 or a to f.
fn digit(b: u8) -> u64
    ensures { (result ≡ digit_of b) × (result < 16) }
{
    match b {
        b'0'..=b'9' => u64::from(b - b'0'),
        b'a'..=b'f' => u64::from(b - b'a') + 10,
        _ => 0,
    }
}

// The number that up to sixteen digits stand for.
fn number(s: &[u8], base: u64) -> u64
    requires { (length s.now ≤ 16) × (base ≤ 16) }
    ensures { result ≡ digits_after base 0 s.now }
{
    s.iter().fold(0, |n, &b| n * base + digit(b))
}

// The double of these bits. All NaNs are one to us, and their bits are not made a double.
fn double(bits: u64) -> f64
    ensures { result ≡ of_bits binary64 bits }
{
    if bits % SIGN > INFINITY {
        return f64::NAN;
    }
    f64::from_bits(bits)
}

// An answer as it is stored.
#[derive(Clone, Copy, PartialEq, Eq)]
struct Stored {
    number: u64,
    root: u64,
}

// Our answer to two doubles, as it is stored.
fn answer_of(x: u64, y: u64) -> Stored
    ensures { (result.number ≡ number_of_bits x y) × (result.root ≡ root_of_bits x y) }
{
    match hypotenuse::hypotenuse(double(x), double(y)) {
        Some(value) => Stored {
            number: 0,
            root: f64::to_bits(value),
        },
        None => Stored {
            number: Cause::Range.number(),
            root: 0,
        },
    }
}

// Whether a line has our answer.
fn is_answer_line(s: &[u8]) -> bool
    ensures { result ≡ is_answer_line s.now }
{
    let n = s.len();
    if n < SHORTEST_LINE || n > LONGEST_LINE {
        return false;
    }
    let x = number(&s[0..16], 16);
    let y = number(&s[17..33], 16);
    let stored = Stored {
        number: number(&s[34..n - 17], 10),
        root: number(&s[n - 16..n], 16),
    };
    answer_of(x, y) == stored
}

// How many lines were read, and how many of them have our answer.
#[derive(Clone, Copy)]
struct Tally {
    lines: u64,
    answers: u64,
    ghost fewer: { answers ≤ lines },
}

fn report<W: Write>(output: &mut W, line: u64) -> io::Result<()> {
    writeln!(output, "not our answer: line {line}")
}

// Whether a line has our answer. It is listed where it is one of the first that have another, with those before it.
fn replay_line<W: Write>(output: &mut W, s: &[u8], before: Tally) -> io::Result<bool>
    requires { before.lines + 1 < 2 ^ 64 }
    ensures { IfOk result (λ ours. ours ≡ is_answer_line s.now) }
{
    let ours = is_answer_line(s);
    if !ours && before.lines - before.answers < LISTED {
        report(output, before.lines + 1)?;
    }
    Ok(ours)
}

// Counts the lines of s on top of those before, and lists the first that have another answer. Answers the counts, and how many bytes there are up to the last
// line's end.
fn replay<W: Write>(output: &mut W, s: &[u8], before: Tally) -> io::Result<(Tally, usize)>
    requires { before.lines + length s.now < 2 ^ 64 }
    ensures { IfOk result (λ r. (r.0.lines ≡ before.lines + lines_in s.now) × (r.0.answers ≡ before.answers + answers_in [] s.now)
        × (r.0.lines ≤ before.lines + length s.now) × (r.1 ≤ length s.now)) }
{
    let mut tally = before;
    let mut start = 0;
    for (i, &b) in s.iter().enumerate() {
        if b == b'\n' {
            let ours = replay_line(output, &s[start..i], tally)?;
            tally = Tally {
                lines: tally.lines + 1,
                answers: tally.answers + u64::from(ours),
            };
            start = i + 1;
        }
    }
    Ok((tally, start))
}

// What is known between two turns of reading: the counts, and how many bytes of a line that has begun stand at the buffer's start.
#[derive(Clone, Copy)]
struct Turn {
    tally: Tally,
    held: usize,
}

// Reads once, behind those bytes, and replays the lines that end; none where nothing more came.
fn replay_some<R: Read, W: Write>(
    input: &mut R,
    output: &mut W,
    buffer: &mut [u8],
    before: Turn,
) -> io::Result<Option<Turn>>
    requires { (before.held ≤ length buffer.old) × (before.tally.lines + length buffer.old < 2 ^ 64) }
    ensures { IfOk result (λ next. IfSome next (λ turn. (turn.held ≤ length buffer.new)
        × (turn.tally.lines ≤ before.tally.lines + length buffer.new))) }
{
    let got = read_full(input, &mut buffer[before.held..])?;
    if got == 0 {
        return Ok(None);
    }
    let n = before.held + got;
    let (tally, used) = replay(output, &buffer[0..n], before.tally)?;
    buffer.copy_within(used..n, 0);
    Ok(Some(Turn {
        tally,
        held: n - used,
    }))
}

fn replay_all<R: Read, W: Write>(
    input: &mut R,
    output: &mut W,
    buffer: &mut [u8],
) -> io::Result<Tally>
    requires { length buffer.old ≤ 65536 }
{
    let mut turn = Turn {
        tally: Tally {
            lines: 0,
            answers: 0,
        },
        held: 0,
    };
    for _ in 0..TURNS {
        let Some(next) = replay_some(input, output, buffer, turn)? else {
            return Ok(turn.tally);
        };
        turn = next;
    }
    Ok(turn.tally)
}

fn main(rt: HostRuntime) -> io::Result<()> {
    let mut input = rt.stdin();
    let mut output = rt.stdout();
    let mut buffer = [0u8; 65536];
    let tally = replay_all(&mut input, &mut output, &mut buffer)?;
    writeln!(
        &mut output,
        "{} of {} stored answers are ours",
        tally.answers, tally.lines
    )
}
