// The list of separations: for each two boundaries their numbers, the bits of their separation, which is the one that pass 1 calls, and the exact square of
// their distance.

#![tactic(auto)]

ghost use Rattle.std.specs.Prelude.{◌≡◌, [], ◌∷◌, ◌+◌, ◌*◌, ◌≤◌, ◌<◌, length};
ghost use Rattle.std.proofs.lemmas.List.Edits.{sets};
ghost use Rattle.definitions.specs.Limits.{max_entries};
ghost use Rattle.separations.specs.Listing.{boundary_count, ends_of_lem, separation_row, column, separation_rows, pair_count, list_verdict, Lists};
ghost use Rattle.refusals.specs.Answers.{answer_in, answer_of};
ghost use Rattle.separation_list.specs.Contract.{PairFits, ColumnFits, RowsFit, max_pairs};

use checks::boundaries::boundaries_fault;
use checks::sizes::{is_whole, sides_fit};
use definitions::limits::NUMBERS_PER_BOUNDARY;
use exact_squares::exact_square;
use geometry::boundaries::segment_of;
use geometry::ramp_geometry::segment_distance;
use refusals::answers::Answer;
use refusals::{Cause, Refusal, ensure, no_fault};

const NUMBERS_PER_SEPARATION: usize = 5;

// The row of boundaries i and j. That they share a point need not be found out twice: the separation is zero just then, by the theorem of the bound.
fn put_pair(boundaries: &[u64], output: &mut [u64], k: usize, i: usize, j: usize)
    requires { PairFits boundaries.now output.old k i j }
    ensures { output.new
        ≡ sets output.old k (separation_row (ends_of_lem boundaries.now i) (ends_of_lem boundaries.now j) i j) }
{
    let left = segment_of(boundaries, i);
    let right = segment_of(boundaries, j);
    let separation = segment_distance(left, right);
    let bits = f64::to_bits(separation);
    let square = exact_square(left, right, bits == 0);
    let row = [i as u64, j as u64, bits, square.num, square.den];
    output[k..k + NUMBERS_PER_SEPARATION].copy_from_slice(&row);
}

// The rows of boundary j and each before it.
fn put_column(boundaries: &[u64], output: &mut [u64], k: usize, j: usize)
    requires { ColumnFits boundaries.now output.old k j }
    ensures { output.new ≡ sets output.old k (column boundaries.now j j) }
{
    for i in 0..j {
        put_pair(boundaries, output, k + i * NUMBERS_PER_SEPARATION, i, j);
    }
}

// The rows of the first n boundaries.
fn put_rows(boundaries: &[u64], output: &mut [u64], n: usize)
    requires { RowsFit boundaries.now output.old n }
    ensures { output.new ≡ sets output.old 0 (separation_rows boundaries.now n) }
{
    for j in 0..n {
        put_column(
            boundaries,
            output,
            NUMBERS_PER_SEPARATION * pair_count(j),
            j,
        );
    }
}

// How many pairs n boundaries have.
fn pair_count(n: usize) -> usize
    requires { n ≤ max_entries }
    ensures { (result ≡ pair_count n) × (result ≤ max_pairs) }
{
    n * n.saturating_sub(1) / 2
}

// The count of rows, unless a check refuses the call: for its sides, an unfinished boundary, a fault of one, or an output too short for the rows.
fn verdict(width: u64, height: u64, boundaries: &[u64], room: usize) -> Result<usize, Refusal>
    ensures { answer_of result ≡ list_verdict width height boundaries.now room }
{
    ensure(sides_fit(width, height), Cause::Sides)?;
    ensure(
        is_whole(NUMBERS_PER_BOUNDARY, boundaries.len()),
        Cause::Entries,
    )?;
    no_fault(boundaries_fault(width, height, boundaries), Cause::Boundary)?;
    let count = pair_count(boundaries.len() / NUMBERS_PER_BOUNDARY);
    ensure(NUMBERS_PER_SEPARATION * count <= room, Cause::Room)?;
    Ok(count)
}

// The separations of each two of these boundaries, on a map of these sides. Gives how many rows there are.
fn list_separations(
    width: u64,
    height: u64,
    boundaries: &[u64],
    output: &mut [u64],
) -> Result<usize, Refusal>
    ensures { Lists width height boundaries.now output.old (answer_of result) output.new }
{
    let count = verdict(width, height, boundaries, output.len())?;
    put_rows(boundaries, output, boundaries.len() / NUMBERS_PER_BOUNDARY);
    Ok(count)
}

// The same, for other languages: include/jenwyllt.h declares it as jenwyllt_separations.
pub fn separation_list_separations(
    width: u64,
    height: u64,
    boundaries: &[u64],
    output: &mut [u64],
) -> Answer
    ensures { Lists width height boundaries.now output.old (answer_in result) output.new }
{
    Answer::from(list_separations(width, height, boundaries, output))
}
