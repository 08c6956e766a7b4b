// A region's record by value: the empty record, the cells of a run added, and what is asked of a record (RegionStats of context.rs; dominance and flatness of
// junctions.rs).
ghost use Rattle.std.specs.Prelude.{◌≡◌, map, ◌*◌, ◌≤◌, length};
ghost use Rattle.definitions.specs.Limits.{max_side};
ghost use Rattle.definitions.specs.Spans.{pixels_per_walk_cell};
ghost use Rattle.definitions.specs.Geometry.{float};
ghost use Rattle.definitions.specs.RegionRecord.{empty_region, corners, dominance, strictly_flat};
ghost use Rattle.elevations.specs.Forms.{dominance_form};
ghost use Rattle.geometry.specs.Forms.{point_form};
ghost use Rattle.context.specs.Records.{record_of, Counted};
ghost use Rattle.context.specs.Cells.{lesser_edge, greater_edge, add_run};
ghost use Rattle.context.specs.Runs.{FittingRun};

use crate::Region;
use crate::runs::{mask_of, run_counts, sums};
use definitions::limits::PIXELS_PER_WALK_CELL;
use elevations::{Dominance, dominance_of};
use geometry::Point;
use geometry::numbers::{float, fmax, fmin};

// An edge that lies `cells` cells from the map's left or upper edge, in pixels.
fn edge(cells: usize) -> f64
    requires { cells ≤ max_side }
    ensures { result ≡ float (cells * pixels_per_walk_cell) }
{
    float(cells as u64 * PIXELS_PER_WALK_CELL)
}

// The first cell sets an edge; each further one may move it out.
fn lesser_edge(first: bool, old: f64, new: f64) -> f64
    ensures { result ≡ lesser_edge first old new }
{
    if first { new } else { fmin(old, new) }
}

fn greater_edge(first: bool, old: f64, new: f64) -> f64
    ensures { result ≡ greater_edge first old new }
{
    if first { new } else { fmax(old, new) }
}

impl Region {
    pub fn empty() -> Self
        ensures { record_of result ≡ empty_region }
    {
        Self {
            cells: 0,
            min_x: 0.0,
            min_y: 0.0,
            max_x: 0.0,
            max_y: 0.0,
            ramp_cells: 0,
            elevations: 0,
            elevation_counts: [0; 4],
        }
    }

    // The record with the cells of a run added, which stand in row y from column x on. A run is added once, not cell by cell.
    pub fn with_run(self, x: usize, y: usize, run: &[u8]) -> Self
        requires counted { Counted (record_of self) }
        requires fitting { FittingRun (record_of self) x y run.now 0 (length run.now) }
        ensures { record_of result ≡ add_run (record_of self) x y run.now 0 (length run.now) }
    {
        let first = self.cells == 0;
        let length = run.len();
        let more = run_counts(run);
        let added = more.elevations;
        let old = self.elevation_counts;
        let counts = sums(old, added);
        Self {
            cells: self.cells + length,
            min_x: lesser_edge(first, self.min_x, edge(x)),
            min_y: lesser_edge(first, self.min_y, edge(y)),
            max_x: greater_edge(first, self.max_x, edge(x + length)),
            max_y: greater_edge(first, self.max_y, edge(y + 1)),
            ramp_cells: self.ramp_cells + more.ramps,
            elevations: self.elevations | mask_of(added),
            elevation_counts: counts,
        }
    }

    // In the Rust's order.
    pub fn corners(self) -> [Point; 4]
        ensures { map point_form result ≡ corners (record_of self) }
    {
        [
            Point {
                x: self.min_x,
                y: self.min_y,
            },
            Point {
                x: self.min_x,
                y: self.max_y,
            },
            Point {
                x: self.max_x,
                y: self.min_y,
            },
            Point {
                x: self.max_x,
                y: self.max_y,
            },
        ]
    }

    // The elevation of most cells, and its share of the region.
    pub fn dominance(self) -> Dominance
        requires { Counted (record_of self) }
        ensures { dominance_form result ≡ dominance (record_of self) }
    {
        let counts = self.elevation_counts;
        dominance_of(self.cells, counts)
    }

    // Exactly one bit set in the joined elevation mask.
    pub fn is_strictly_flat(self, other: Region) -> bool
        ensures { result ≡ strictly_flat (record_of self) (record_of other) }
    {
        u8::count_ones(self.elevations | other.elevations) == 1
    }
}
