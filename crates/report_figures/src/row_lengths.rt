// What the rows of an accepted run add: the numbers that none of them has, and the squares of their lengths.
ghost use Rattle.std.specs.Prelude.{◌≡◌, ◌*◌, ◌≤◌};
ghost use Rattle.laws.specs.FloatLaws.Pixels.{max_pixel, PixelSegment};
ghost use Rattle.laws.specs.ListLaws.FlatRows.{row_at, rows_held};
ghost use Rattle.report.specs.Runs.{square_apart, squared_length, squared_lengths};
ghost use Rattle.report.specs.ReportLaws.OneRun.{max_square};
ghost use Rattle.report.specs.ReportLaws.Named.{named, unnamed_below};
ghost use Rattle.report_figures.specs.Forms.{HeldOnMap};

use definitions::limits::NUMBERS_PER_ROW;

// Whether one of the rows has this number.
fn is_named(rows: &[[u64; NUMBERS_PER_ROW]], number: usize) -> bool
    ensures { result ≡ named (rows_held rows.now) number }
{
    rows.iter().any(|row| row[0] == number as u64)
}

// How many numbers below `count` none of the rows has.
pub fn count_unnamed(rows: &[[u64; NUMBERS_PER_ROW]], count: usize) -> u64
    ensures { result ≡ unnamed_below count (rows_held rows.now) }
{
    (0..count).filter(|&i| !is_named(rows, i)).count() as u64
}

// The distance of two pixels, squared.
fn square_apart(a: u64, b: u64) -> u64
    requires { (a ≤ max_pixel) × (b ≤ max_pixel) }
    ensures answer { result ≡ square_apart a b }
    ensures bound { result ≤ max_pixel * max_pixel }
{
    let apart = a.abs_diff(b);
    apart * apart
}

// The squared length of a row.
fn squared_length(row: &[u64; NUMBERS_PER_ROW]) -> u64
    requires { PixelSegment (row_at row.now 0).line }
    ensures answer { result ≡ squared_length (row_at row.now 0).line }
    ensures bound { result ≤ max_square }
{
    let [_, x0, y0, x1, y1] = *row;
    square_apart(x0, x1) + square_apart(y0, y1)
}

// The squared lengths of the rows.
pub fn squared_lengths(rows: &[[u64; NUMBERS_PER_ROW]]) -> u64
    requires { HeldOnMap rows.now }
    ensures { result ≡ squared_lengths (rows_held rows.now) }
{
    rows.iter().map(|row| squared_length(row)).sum()
}
