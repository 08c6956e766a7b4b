// What the passes read of a partitioned map: a region's record by value, and the partition by its boundaries, as lent.

#![tactic(auto)]

pub mod anchored;
pub mod found_regions;
pub mod incidents;
pub mod pairs;
pub mod records;
pub mod region_marks;
pub mod runs;

use definitions::limits::MAX_ENTRIES;

// How far the corners of a region that is approached may be from a boundary's center, in pixels, as passes 1 and 2 ask it.
pub const MAX_APPROACH_RADIUS: f64 = 512.0;

// The record of a region, as RegionStats of context.rs: SPECIFICATION 9, and with it how many of its cells are ramp cells. Edges are in pixels; bit e of
// `elevations` says that a cell has elevation e.
#[repr(C)]
#[derive(Clone, Copy)]
pub struct Region {
    pub cells: usize,
    pub min_x: f64,
    pub min_y: f64,
    pub max_x: f64,
    pub max_y: f64,
    pub ramp_cells: usize,
    pub elevations: u8,
    pub elevation_counts: [usize; 4],
}

// What a pass reads of a partition by its boundaries (`PartitionContext` of context.rs): the boundaries as lent, two tallies of each, the rows of pairs, the
// first row of each boundary's pairs and the end of the last, and how many boundaries there are.
#[derive(Clone, Copy)]
pub struct PartitionContext<'a> {
    pub boundaries: &'a [u64],
    pub tallies: &'a [u32],
    pub pairs: &'a [u32],
    pub starts: &'a [usize; MAX_ENTRIES + 1],
    pub count: usize,
}
