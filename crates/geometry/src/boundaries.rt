// What reads the boundaries of a lent list, nine numbers each: which of them is which. The first four are the endpoints. (Crates that do not see this one, as
// `rows` and `checks`, read a boundary from the place of its first number.)
ghost use Rattle.std.specs.Prelude.{◌≡◌, not, ◌+◌, ◌*◌, get_or, eqb};
ghost use Rattle.definitions.specs.Limits.{numbers_per_boundary};
ghost use Rattle.definitions.specs.Grid.{segment_at};
ghost use Rattle.definitions.specs.Geometry.{center};
ghost use Rattle.geometry.specs.Forms.{point_form, segment_form};
ghost use Rattle.geometry.specs.Placed.{HasBoundary, Placed};
ghost use Rattle.geometry.specs.Kinds.{kind_of};

use crate::points::center;
use crate::{Point, Segment};
use definitions::limits::NUMBERS_PER_BOUNDARY;
use span_geometry::segments::segment_at;

const WIDTH: usize = 4;

const KIND: usize = 5;

const RAMP: usize = 6;

const LOWER: usize = 7;

const UPPER: usize = 8;

// What a boundary is: no part of a ramp, or an end of one. A list that no check has seen may hold another number, which is kept, so that two kinds are equal
// just where their numbers are.
#[derive(Clone, Copy, PartialEq, Eq)]
pub enum BoundaryKind {
    Plain,
    Lower,
    Upper,
    Other(u64),
}

impl From<u64> for BoundaryKind {
    ghost from_gives = { λ number kind. kind ≡ kind_of number };

    fn from(number: u64) -> BoundaryKind {
        match number {
            0 => BoundaryKind::Plain,
            1 => BoundaryKind::Lower,
            2 => BoundaryKind::Upper,
            other => BoundaryKind::Other(other),
        }
    }
}

// Kept: a list and a number, not a chunk of nine: the definitions' `boundary_at` reads the list at 9 * i, and so do the contracts here. Of chunks, each pass,
// which holds numbers of boundaries, would first take the chunk of each, and each of its proofs would say again which part of the list that chunk is.
// The endpoints of boundary i as written.
pub fn segment_of(boundaries: &[u64], i: usize) -> Segment
    requires { HasBoundary boundaries.now i }
    ensures { segment_form result ≡ segment_at boundaries.now (numbers_per_boundary * i) }
{
    segment_at(boundaries, NUMBERS_PER_BOUNDARY * i)
}

// The center of boundary i.
pub fn center_of(boundaries: &[u64], i: usize) -> Point
    requires { Placed boundaries.now i }
    ensures { point_form result ≡ center (segment_at boundaries.now (numbers_per_boundary * i)) }
{
    let Segment { a, b } = segment_of(boundaries, i);
    center(a, b)
}

// The bits of the width of boundary i.
pub fn width_at(boundaries: &[u64], i: usize) -> u64
    requires { HasBoundary boundaries.now i }
    ensures { result ≡ get_or boundaries.now (numbers_per_boundary * i + 4) 0 }
{
    boundaries[NUMBERS_PER_BOUNDARY * i + WIDTH]
}

// The kind of boundary i.
pub fn kind_at(boundaries: &[u64], i: usize) -> BoundaryKind
    requires { HasBoundary boundaries.now i }
    ensures { result ≡ kind_of (get_or boundaries.now (numbers_per_boundary * i + 5) 0) }
{
    BoundaryKind::from(boundaries[NUMBERS_PER_BOUNDARY * i + KIND])
}

// Whether boundary i is an end of a ramp.
pub fn has_ramp(boundaries: &[u64], i: usize) -> bool
    requires { HasBoundary boundaries.now i }
    ensures { result ≡ not (eqb (get_or boundaries.now (numbers_per_boundary * i + 5) 0) 0) }
{
    kind_at(boundaries, i) != BoundaryKind::Plain
}

// Whether boundaries i and j are of one kind.
// Kept: the numbers are compared, not the kinds, which say the same: pass 1 asks this of each boundary for each ramp, and two kinds made of their numbers take
// some twenty instructions more.
pub fn same_kind(boundaries: &[u64], i: usize, j: usize) -> bool
    requires { HasBoundary boundaries.now i × HasBoundary boundaries.now j }
    ensures { result ≡ eqb (get_or boundaries.now (numbers_per_boundary * i + 5) 0) (get_or boundaries.now (numbers_per_boundary * j + 5) 0) }
{
    boundaries[NUMBERS_PER_BOUNDARY * i + KIND] == boundaries[NUMBERS_PER_BOUNDARY * j + KIND]
}

// The number of the ramp of boundary i.
pub fn ramp_at(boundaries: &[u64], i: usize) -> u64
    requires { HasBoundary boundaries.now i }
    ensures { result ≡ get_or boundaries.now (numbers_per_boundary * i + 6) 0 }
{
    boundaries[NUMBERS_PER_BOUNDARY * i + RAMP]
}

// The elevation of the lower end of boundary i's ramp.
pub fn lower_at(boundaries: &[u64], i: usize) -> u64
    requires { HasBoundary boundaries.now i }
    ensures { result ≡ get_or boundaries.now (numbers_per_boundary * i + 7) 0 }
{
    boundaries[NUMBERS_PER_BOUNDARY * i + LOWER]
}

// The elevation of the upper end of boundary i's ramp.
pub fn upper_at(boundaries: &[u64], i: usize) -> u64
    requires { HasBoundary boundaries.now i }
    ensures { result ≡ get_or boundaries.now (numbers_per_boundary * i + 8) 0 }
{
    boundaries[NUMBERS_PER_BOUNDARY * i + UPPER]
}
