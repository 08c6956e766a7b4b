// The walk of the cut steps of a span: columns, or rows, one after the other, and in each the cells near the span's line. What is done with the cut steps of a
// cell, a `StepVisitor` says: they are marked (`Marking`), or assessed by a crate above.
ghost use Rattle.std.specs.Prelude.{◌≡◌, ◌&&◌, cond, Some, None, ◌+◌, ◌-◌, ◌*◌, ◌≤◌, ◌<◌, List, leb, ltb, ℕ};
ghost use Rattle.definitions.specs.Limits.{max_side};
ghost use Rattle.definitions.specs.Grid.{Map, Pair, at};
ghost use Rattle.span_geometry.specs.Shapes.{segment_of};
ghost use Rattle.span_geometry.specs.Strips.{Usable};
ghost use Rattle.span_geometry.specs.Candidates.{major_side, minor_side};
ghost use Rattle.grid_steps.specs.Grids.{terrain_of};
ghost use Rattle.cut_steps.specs.CutSteps.{cut_span};
ghost use Rattle.cut_steps.specs.Crossed.{Crossed, CrossedAt, FollowsIn, BetweenAsked, Parted, EndsPart, PartAsked};
ghost use Rattle.cut_steps.specs.Visits.{VisitLaws};
ghost use Rattle.cut_steps.specs.Walks.{walk_map, cell_steps, across_steps, column_steps, columns_steps, CellIn, ColumnIn, ColumnsIn, SpanIn, CutIn, max_cells};

use super::cell::side_changes;
use super::extents::{near_axis, near_range};
use definitions::limits::PIXELS_PER_WALK_CELL;
use grid_steps::grid::{TerrainGrid, WalkPosition};
use line_crossings::{first_place, next_place, tie_of};
use span_geometry::SpanGeometry;
use span_geometry::strips::Strip;

// The middle of the column, or row, before k is at 8 k - 4, and that of the one after it at 8 k + 12. So the first of these is at pixel p or later
// where k is (p + 11) / 8 or more, and the second is at p or earlier where k is below (p - 4) / 8.
const ENDS_AFTER: u64 = 11;

const BEGINS_BEFORE: u64 = 4;

// A span on a grid, and its strip.
#[derive(Clone, Copy)]
pub struct SpanWalk<'a> {
    pub grid: TerrainGrid<'a>,
    pub g: SpanGeometry,
    pub strip: Strip,
}

impl SpanWalk<'_> {
    // The cell at m across column, or row, k.
    fn cell(self, columns: bool, k: usize, m: usize) -> WalkPosition
        requires { columns ≡ self.strip.columns }
        ensures x { result.x ≡ cond self.entry.strip.columns k m }
        ensures y { result.y ≡ cond self.entry.strip.columns m k }
    {
        if columns {
            WalkPosition { x: k, y: m }
        } else {
            WalkPosition { x: m, y: k }
        }
    }

    // How many columns, or rows, the grid has.
    fn length(self) -> usize
        ensures { result ≡ major_side self.entry.strip self.entry.grid.width self.entry.grid.height }
    {
        let TerrainGrid { width, height, .. } = self.grid;
        if self.strip.columns { width } else { height }
    }

    // How many cells each of them has.
    fn breadth(self, columns: bool) -> usize
        requires { columns ≡ self.strip.columns }
        ensures { result ≡ minor_side self.entry.strip self.entry.grid.width self.entry.grid.height }
    {
        let TerrainGrid { width, height, .. } = self.grid;
        if columns { height } else { width }
    }
}

// What is done with the cut steps of cells, one cell after the other.
pub trait StepVisitor {
    // It is ready for these steps of the map, of so many cells.
    ghost ready: { Map → List Pair → ℕ → Self → Type 0 };

    // From the one to the other these steps of the map, of so many cells, are visited.
    ghost visited: { Map → List Pair → ℕ → Self → Self → Type 0 };

    // The directions in which a cell between the span's ends has cut steps, where its changes of sides are given.
    fn crossed_directions(&self, walk: SpanWalk, cell: WalkPosition, changes: u16) -> u16
        requires asked { CellIn walk cell }
        requires crossed { Crossed (segment_of walk.g) (at cell.x cell.y) changes }
        requires is_ready { ready (walk_map walk) (cell_steps walk cell) 1 self.now }
        ensures { CutIn walk.entry cell result };

    // Visits the cut steps of a cell, whose directions are given.
    fn visit(&mut self, walk: SpanWalk, cell: WalkPosition, directions: u16)
        requires asked { CellIn walk cell }
        requires directions { CutIn walk cell directions }
        requires is_ready { ready (walk_map walk) (cell_steps walk cell) 1 self.old }
        ensures { visited (walk_map walk.entry) (cell_steps walk.entry cell) 1 self.old self.new };

    // What each `impl` proves of the two.
    ghost laws: { VisitLaws ready visited };
}

// Visits the cut steps of one cell. Most cells have none. The span is lent here and in the two functions that lead here, and not copied for each cell: maps of
// short spans (`mouths` and `hub` of bench/) take up to 5 percent fewer instructions.
fn walk_cell<V: StepVisitor>(walk: &SpanWalk, visitor: &mut V, cell: WalkPosition)
    requires asked { CellIn walk.now cell }
    requires is_ready { V.ready (walk_map walk.now) (cell_steps walk.now cell) 1 visitor.old }
    ensures { V.visited (walk_map walk.now) (cell_steps walk.now cell) 1 visitor.old visitor.new }
{
    if !walk.is_near(cell) {
        return;
    }
    let directions = walk.cut_directions(cell);
    visitor.visit(*walk, cell, directions);
}

// Visits the cut steps of the candidates in column, or row, k. Those beyond the span have none, and are not asked.
fn walk_column<V: StepVisitor>(walk: &SpanWalk, visitor: &mut V, k: usize)
    requires asked { ColumnIn walk.now k }
    requires is_ready { V.ready (walk_map walk.now) (column_steps walk.now k) max_side visitor.old }
    ensures { V.visited (walk_map walk.now) (column_steps walk.now k) max_side visitor.old visitor.new }
{
    let columns = walk.strip.columns;
    let breadth = walk.breadth(columns);
    let range = near_range(walk.g, walk.strip, k as u64, breadth as u64);
    for m in range.first as usize..range.last as usize + 1 {
        walk_cell(walk, visitor, walk.cell(columns, k, m));
    }
}

// The place two before `beyond`, where there is one and it is below the limit.
// Kept: both tests, of which the compiler makes one branch, and not `beyond.checked_sub(2).filter(|&m| m < limit)`, with which the partition of `comb`
// (bench/) takes a fifth more instructions.
fn place_before(beyond: usize, limit: usize) -> Option<usize>
    ensures { result ≡ cond (leb 2 beyond && ltb (beyond - 2) limit) (Some (beyond - 2)) None }
{
    if 2 <= beyond && beyond - 2 < limit {
        Some(beyond - 2)
    } else {
        None
    }
}

// Visits the cut steps of the cell at `beyond` - 2 across column, or row, k, if there is one. Its changes of sides are given. Whether the strip goes by columns
// is a parameter of the type, so that the loop between the span's ends is compiled for either: asked at each cell, it made assessing long spans take a seventh
// longer.
fn walk_across<V: StepVisitor, const COLUMNS: bool>(
    walk: SpanWalk,
    visitor: &mut V,
    k: usize,
    beyond: usize,
    changes: u16,
)
    requires asked { ColumnIn walk k }
    requires axis { COLUMNS ≡ walk.strip.columns }
    requires changes { CrossedAt (segment_of walk.g) walk.strip k beyond changes }
    requires is_ready { V.ready (walk_map walk) (across_steps walk k beyond) 1 visitor.old }
    ensures { V.visited (walk_map walk.entry) (across_steps walk.entry k beyond) 1 visitor.old visitor.new }
{
    if changes == 0 {
        return;
    }
    let Some(m) = place_before(beyond, walk.breadth(COLUMNS)) else {
        return;
    };
    let cell = walk.cell(COLUMNS, k, m);
    let directions = visitor.crossed_directions(walk, cell, changes);
    visitor.visit(walk, cell, directions);
}

// Visits the cut steps of the candidates in column, or row, k, by the first places past the line there and beside it: those of four cells.
fn walk_crossing<V: StepVisitor, const COLUMNS: bool>(
    walk: SpanWalk,
    visitor: &mut V,
    k: usize,
    before: usize,
    here: usize,
    after: usize,
)
    requires asked { ColumnIn walk k }
    requires axis { COLUMNS ≡ walk.strip.columns }
    requires follows { FollowsIn walk.strip (segment_of walk.g) k before here after }
    requires is_ready { V.ready (walk_map walk) (column_steps walk k) max_side visitor.old }
    ensures { V.visited (walk_map walk.entry) (column_steps walk.entry k) max_side visitor.old visitor.new }
{
    let back = before + 2 - here;
    let ahead = after + 2 - here;
    for j in 0..4 {
        let changes = side_changes(COLUMNS, back, ahead, j);
        walk_across::<V, COLUMNS>(walk, visitor, k, here + j, changes);
    }
}

// Visits the cut steps of the candidates in the columns, or rows, from `from` on before `to`, which are between the span's ends.
fn walk_between<V: StepVisitor, const COLUMNS: bool>(
    walk: SpanWalk,
    visitor: &mut V,
    from: usize,
    to: usize,
)
    requires asked { ColumnsIn walk from to }
    requires axis { COLUMNS ≡ walk.strip.columns }
    requires between { BetweenAsked (segment_of walk.g) walk.strip from to × (from < to) }
    requires is_ready { V.ready (walk_map walk) (columns_steps walk from to) (max_side * (to - from)) visitor.old }
    ensures { V.visited (walk_map walk.entry) (columns_steps walk.entry from to) (max_side * (to - from)) visitor.old visitor.new }
{
    let strip = walk.strip;
    let tie = tie_of(walk.g, strip);
    let mut before = first_place(strip, tie, from as u64 - 1);
    let mut here = next_place(strip, before);
    for k in from..to {
        let after = next_place(strip, here);
        walk_crossing::<V, COLUMNS>(
            walk,
            visitor,
            k,
            before.first as usize,
            here.first as usize,
            after.first as usize,
        );
        before = here;
        here = after;
    }
}

// The columns, or rows, near a span: from `first` on before `end`. Those from `from` on before `to` are between its ends, with those beside them.
#[derive(Clone, Copy)]
pub struct Parts {
    pub first: usize,
    pub from: usize,
    pub to: usize,
    pub end: usize,
}

// The parts of a map with as many columns, or rows, as limit says.
pub fn parts_of(strip: Strip, limit: usize) -> Parts
    requires { Usable strip × (0 < limit) × (limit ≤ max_side) }
    ensures { Parted strip limit result.first result.from result.to result.end }
{
    let axis = near_axis(strip, limit as u64);
    let first = axis.first as usize;
    let end = first.max(axis.last as usize + 1);
    let inner = (strip.major0 + ENDS_AFTER) / PIXELS_PER_WALK_CELL;
    let outer = strip.major1.saturating_sub(BEGINS_BEFORE) / PIXELS_PER_WALK_CELL;
    let from = first.max(inner as usize).min(end);
    let to = from.max((outer as usize).min(end));
    Parts {
        first,
        from,
        to,
        end,
    }
}

// The end of the part that begins at k: that of the columns, or rows, between the ends, and elsewhere the next one.
pub fn part_end(parts: Parts, k: usize) -> usize
    requires { k < max_side }
    ensures { EndsPart parts.from parts.to k result }
{
    if k == parts.from && k < parts.to {
        parts.to
    } else {
        k + 1
    }
}

// Visits the cut steps of a part: by the line between the span's ends, and of a single column, or row, those of every candidate.
fn walk_part<V: StepVisitor>(walk: &SpanWalk, visitor: &mut V, from: usize, to: usize)
    requires asked { ColumnsIn walk.now from to }
    requires part { PartAsked (segment_of walk.now.g) walk.now.strip from to }
    requires is_ready { V.ready (walk_map walk.now) (columns_steps walk.now from to) (max_side * (to - from)) visitor.old }
    ensures { V.visited (walk_map walk.now) (columns_steps walk.now from to) (max_side * (to - from)) visitor.old visitor.new }
{
    if to <= from + 1 {
        walk_column(walk, visitor, from);
        return;
    }
    if walk.strip.columns {
        walk_between::<V, true>(*walk, visitor, from, to);
    } else {
        walk_between::<V, false>(*walk, visitor, from, to);
    }
}

// Visits the cut steps of one span. One without a column, or row, between its ends has single ones only.
pub fn walk_span<V: StepVisitor>(grid: TerrainGrid, g: SpanGeometry, visitor: &mut V)
    requires asked { SpanIn grid g }
    requires is_ready { V.ready (terrain_of grid) (cut_span (terrain_of grid) (segment_of g)) max_cells visitor.old }
    ensures { V.visited (terrain_of grid.entry) (cut_span (terrain_of grid.entry) (segment_of g)) max_cells visitor.old visitor.new }
{
    let walk = SpanWalk {
        grid,
        g,
        strip: Strip::new(g),
    };
    let parts = parts_of(walk.strip, walk.length());
    let mut k = parts.first;
    // Kept: with a loop before, a call between and a loop behind, maps of short spans took a quarter longer (docs/DECISIONS.md), since the walk of a column is
    // then called at two places.
    while k < parts.end {
        let next = part_end(parts, k);
        walk_part(&walk, visitor, k, next);
        k = next;
    }
}
