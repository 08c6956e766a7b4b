// What `keptlist` prints, as bytes in a lent list: SPECIFICATION 14 and 15. Every line ends in a newline.

#![tactic(auto)]

ghost use Rattle.std.specs.Prelude.{◌≡◌, [], ◌∷◌, ◌++◌, ◌+◌, ◌*◌, ◌≤◌, length};
ghost use Rattle.definitions.specs.Printed.{text, decimal, kept_line, refused_line, row_line};
ghost use Rattle.laws.specs.ListLaws.FlatRows.{row_at};
ghost use Rattle.refusals.specs.Refusals.{number_of};
ghost use Rattle.byte_writer.specs.Contract.{HasRoom, Appends};
ghost use Rattle.printed.specs.Contract.{most_digits, row_room, line_room, DigitCount, Printed, row_lines};

use byte_writer::Writer;
use definitions::limits::NUMBERS_PER_ROW;
use refusals::Refusal;

const SPACE: u8 = b' ';

const NEWLINE: u8 = b'\n';

// How many digits a number has.
fn digit_count(n: u64) -> u32
    ensures { DigitCount n result }
{
    n.max(1).ilog10() + 1
}

// A number below 10 as a digit.
fn digit(n: u64) -> u8
    requires { n ≤ 9 }
    ensures { result ≡ 48 + n }
{
    b'0' + n as u8
}

// Writes a number in decimal digits.
fn put_decimal(w: &mut Writer, n: u64)
    requires { HasRoom w.old most_digits }
    ensures put { Appends w.old (decimal n) w.new }
    ensures bound { w.new.at ≤ w.old.at + most_digits }
{
    let count = digit_count(n);
    for place in (0..count).rev() {
        w.put_byte(digit(n / 10u64.pow(place) % 10));
    }
}

// Writes a number and one byte behind it.
fn put_number(w: &mut Writer, n: u64, behind: u8)
    requires { HasRoom w.old (most_digits + 1) }
    ensures put { Appends w.old (decimal n ++ (behind ∷ [])) w.new }
    ensures bound { w.new.at ≤ w.old.at + most_digits + 1 }
{
    put_decimal(w, n);
    w.put_byte(behind);
}

// Writes a line of two texts, each with a number behind it.
fn put_line(w: &mut Writer, first: &[u8], m: u64, second: &[u8], n: u64)
    requires { HasRoom w.old (length first.now + length second.now + 2 * most_digits + 1) }
    ensures put { Appends w.old (first.now ++ decimal m ++ second.now ++ decimal n ++ text "\n") w.new }
    ensures bound { w.new.at ≤ w.old.at + length first.now + length second.now + 2 * most_digits + 1 }
{
    w.put(first);
    put_decimal(w, m);
    w.put(second);
    put_number(w, n, NEWLINE);
}

// Writes a row, with single spaces.
// Kept: five calls show the line. For a loop over four of them the prover does not cover `[numbers @ .., last]`, and with indices it is no shorter.
fn put_row(w: &mut Writer, row: &[u64; NUMBERS_PER_ROW])
    requires { HasRoom w.old row_room }
    ensures put { Appends w.old (row_line (row_at row.now 0)) w.new }
    ensures bound { w.new.at ≤ w.old.at + row_room }
{
    put_number(w, row[0], SPACE);
    put_number(w, row[1], SPACE);
    put_number(w, row[2], SPACE);
    put_number(w, row[3], SPACE);
    put_number(w, row[4], NEWLINE);
}

// Writes the rows, a line each.
fn put_rows(w: &mut Writer, rows: &[[u64; NUMBERS_PER_ROW]])
    requires { HasRoom w.old (row_room * length rows.now) }
    ensures put { Appends w.old (row_lines rows.now) w.new }
    ensures bound { w.new.at ≤ w.old.at + row_room * length rows.now }
{
    for row in rows {
        put_row(w, row);
    }
}

// Prints a refusal, and gives how many bytes it has.
pub fn print_refused(out: &mut [u8], refusal: Refusal) -> usize
    requires { line_room ≤ length out.old }
    ensures printed { Printed (refused_line (number_of refusal.cause) refusal.place) out.old out.new result }
    ensures bound { result ≤ line_room }
{
    let mut writer = Writer { out, at: 0 };
    put_line(
        &mut writer,
        b"refused ",
        refusal.cause.number(),
        b" at ",
        refusal.place as u64,
    );
    writer.at
}

// Prints the kept list of these rows, of so many boundaries, and gives how many bytes it has.
pub fn print_kept(out: &mut [u8], rows: &[[u64; NUMBERS_PER_ROW]], count: usize) -> usize
    requires { line_room + row_room * length rows.now ≤ length out.old }
    ensures printed { Printed (kept_line (length rows.now) count ++ row_lines rows.now) out.old out.new result }
    ensures bound { result ≤ line_room + row_room * length rows.now }
{
    let mut writer = Writer { out, at: 0 };
    put_line(
        &mut writer,
        b"kept ",
        rows.len() as u64,
        b" of ",
        count as u64,
    );
    put_rows(&mut writer, rows);
    writer.at
}
