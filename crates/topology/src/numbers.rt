// Records of regions in plain numbers, for programs that print them.
ghost use Rattle.std.specs.Prelude.{◌≡◌, map, ◌+◌, ◌≤◌, length};
ghost use Rattle.std.proofs.lemmas.List.Edits.{sets};
ghost use Rattle.std.specs.Float.{binary64};
ghost use Rattle.std.specs.Float.Ieee.{to_bits};
ghost use Rattle.context.specs.Records.{record_of};
ghost use Rattle.topology.specs.Numbers.{record_numbers, with_records};

use context::Region;

const NUMBERS_PER_RECORD: usize = 11;

// The call with records of its own has so many.
pub const RECORDS_HERE: usize = 512;

// A NaN's, of which there is one in the definitions. No edge is a NaN.
const NAN_BITS: u64 = 0x7ff8_0000_0000_0000;

// The bits of an edge.
fn bits_of(x: f64) -> u64
    ensures { result ≡ to_bits binary64 x }
{
    if x.is_nan() {
        return NAN_BITS;
    }
    f64::to_bits(x)
}

// Cells, the bits of the four edges, ramp cells, the mask, and the count of each elevation.
fn numbers_of(r: Region) -> [u64; NUMBERS_PER_RECORD]
    ensures { result ≡ record_numbers (record_of r) }
{
    let counts = r.elevation_counts;
    [
        r.cells as u64,
        bits_of(r.min_x),
        bits_of(r.min_y),
        bits_of(r.max_x),
        bits_of(r.max_y),
        r.ramp_cells as u64,
        r.elevations as u64,
        counts[0] as u64,
        counts[1] as u64,
        counts[2] as u64,
        counts[3] as u64,
    ]
}

// Puts them from place `at` on.
fn put_numbers(numbers: &mut [u64], at: usize, r: Region)
    requires { at + 11 ≤ length numbers.old }
    ensures { numbers.new ≡ sets numbers.old at (record_numbers (record_of r)) }
{
    let n = numbers_of(r);
    numbers[at..at + NUMBERS_PER_RECORD].copy_from_slice(&n);
}

// Writes the records in numbers, as many as there is room for.
pub fn put_records(records: &[Region], numbers: &mut [u64])
    ensures { numbers.new ≡ with_records (map record_of records.now) numbers.old }
{
    let count = records.len().min(numbers.len() / NUMBERS_PER_RECORD);
    for (i, &r) in records[..count].iter().enumerate() {
        put_numbers(numbers, NUMBERS_PER_RECORD * i, r);
    }
}
