// The starting list in row order with canonical endpoints, and the rows of what is kept.
ghost use Rattle.std.specs.Prelude.{◌≡◌, ◌++◌, ◌+◌, ◌*◌, ◌≤◌, length, get_or};
ghost use Rattle.std.proofs.lemmas.List.Edits.{sets};
ghost use Rattle.definitions.specs.Limits.{max_entries, numbers_per_boundary, numbers_per_row, numbers_per_span};
ghost use Rattle.definitions.specs.Lists.{overwrite};
ghost use Rattle.definitions.specs.Rows.{flat_rows};
ghost use Rattle.laws.specs.ListLaws.Lists.{All};
ghost use Rattle.laws.specs.ListLaws.FlatRows.{row_at, rows_held};
ghost use Rattle.rest.specs.FlatLists.{flat_boundary};
ghost use Rattle.boundary_blocks.specs.Start.{rows_of_all, numbers_of, ends_of_lem, turned_in, turned_of, NamedIn, rows_at};

use crate::blocks::copy_block;
use definitions::limits::{MAX_ENTRIES, NUMBERS_PER_BOUNDARY, NUMBERS_PER_ROW, NUMBERS_PER_SPAN};
use rows::canonical_output;

// What stands behind a boundary's endpoints.
const BEHIND_SIZE: usize = NUMBERS_PER_BOUNDARY - NUMBERS_PER_SPAN;

// The numbers of the rows.
fn put_numbers(rows: &[[u64; NUMBERS_PER_ROW]], numbers: &mut [u64])
    requires { length rows.now ≤ length numbers.old }
    ensures { numbers.new ≡ overwrite (numbers_of (rows_held rows.now)) numbers.old }
{
    for (k, row) in rows.iter().enumerate() {
        numbers[k] = row[0];
    }
}

// Their endpoints.
fn put_spans(rows: &[[u64; NUMBERS_PER_ROW]], spans: &mut [u64])
    requires { numbers_per_span * length rows.now ≤ length spans.old }
    ensures { spans.new ≡ overwrite (ends_of_lem (rows_held rows.now)) spans.old }
{
    for (k, row) in rows.iter().enumerate() {
        copy_block(row, 1, &mut *spans, NUMBERS_PER_SPAN * k, NUMBERS_PER_SPAN);
    }
}

// The boundary that a row names, with the row's endpoints, at place k.
fn put_boundary(lent: &[u64], row: &[u64; NUMBERS_PER_ROW], k: usize, boundaries: &mut [u64])
    requires { (numbers_per_boundary * (k + 1) ≤ length boundaries.old) × NamedIn lent.now (row_at row.now 0) }
    ensures { boundaries.new
        ≡ sets boundaries.old (numbers_per_boundary * k) (flat_boundary (turned_in lent.now (row_at row.now 0))) }
{
    let place = NUMBERS_PER_BOUNDARY * k;
    let number = row[0] as usize;
    copy_block(row, 1, boundaries, place, NUMBERS_PER_SPAN);
    copy_block(
        lent,
        NUMBERS_PER_BOUNDARY * number + NUMBERS_PER_SPAN,
        boundaries,
        place + NUMBERS_PER_SPAN,
        BEHIND_SIZE,
    );
}

// The boundaries that the rows name.
fn put_boundaries(lent: &[u64], rows: &[[u64; NUMBERS_PER_ROW]], boundaries: &mut [u64])
    requires { (numbers_per_boundary * length rows.now ≤ length boundaries.old) × All (NamedIn lent.now) (rows_held rows.now) }
    ensures { boundaries.new ≡ overwrite (turned_of lent.now (rows_held rows.now)) boundaries.old }
{
    for (k, row) in rows.iter().enumerate() {
        put_boundary(lent, row, k, &mut *boundaries);
    }
}

// The numbers as lent, spans and boundaries of the starting list, by place.
pub fn start_lists(
    lent: &[u64],
    count: usize,
    numbers: &mut [u64],
    spans: &mut [u64],
    boundaries: &mut [u64],
)
    requires sizes { (count ≤ max_entries) × (numbers_per_boundary * count ≤ length lent.now) }
    requires room { (count ≤ length numbers.old) × (numbers_per_span * count ≤ length spans.old) × (numbers_per_boundary * count ≤ length boundaries.old) }
    ensures numbers { numbers.new ≡ overwrite (numbers_of (rows_of_all lent.now count)) numbers.old }
    ensures spans { spans.new ≡ overwrite (ends_of_lem (rows_of_all lent.now count)) spans.old }
    ensures boundaries { boundaries.new
        ≡ overwrite (turned_of lent.now (rows_of_all lent.now count)) boundaries.old }
{
    let none = [false; MAX_ENTRIES];
    let mut rows = [0u64; NUMBERS_PER_ROW * MAX_ENTRIES];
    canonical_output(lent, count, &none, &mut rows);
    let (rows, _) = rows.as_chunks::<NUMBERS_PER_ROW>();
    let rows = &rows[..count];
    put_numbers(rows, numbers);
    put_spans(rows, spans);
    put_boundaries(lent, rows, boundaries);
}

// Writes the rows of what is kept: numbers as lent, and endpoints.
pub fn put_rows(numbers: &[u64], spans: &[u64], kept: usize, output: &mut [u64])
    requires { (kept ≤ length numbers.now) × (numbers_per_span * kept ≤ length spans.now) × (numbers_per_row * kept ≤ length output.old) }
    ensures { output.new ≡ overwrite (flat_rows (rows_at numbers.now spans.now kept)) output.old }
{
    // Kept: k is a place of three lists. Items of `numbers` beside chunks of `spans` would be a zip of two, numbered by k for the output all the same.
    for k in 0..kept {
        let at = NUMBERS_PER_ROW * k;
        output[at] = numbers[k];
        copy_block(
            spans,
            NUMBERS_PER_SPAN * k,
            output,
            at + 1,
            NUMBERS_PER_SPAN,
        );
    }
}
