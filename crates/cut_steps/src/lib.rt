// The steps that spans cut: of one cell, and marked in the masks of all cells, as the first half of `partition_by_spans` of areas.rs.

#![tactic(auto)]

pub mod cell;
pub mod extents;
pub mod walk;

ghost use Rattle.std.specs.Prelude.{◌≡◌, ℕ, ◌*◌, ◌≤◌, ◌<◌, length, get_or};
ghost use Rattle.definitions.specs.Grid.{segment_at};
ghost use Rattle.span_geometry.specs.Shapes.{Made, segment_of};
ghost use Rattle.grid_steps.specs.Grids.{terrain_of};
ghost use Rattle.cut_steps.specs.Contract.{Checked};
ghost use Rattle.cut_steps.specs.CutSteps.{cut_span};
ghost use Rattle.cut_steps.specs.Walks.{SpanIn};
ghost use Rattle.cut_steps.specs.Marking.{SpanAtAsked, Marked, SpansMarked};
ghost use Rattle.cut_steps.specs.MarkVisits.{MarkReady, MarkVisited, mark_laws};

use definitions::limits::NUMBERS_PER_SPAN;
use grid_steps::grid::{TerrainGrid, WalkPosition};
use span_geometry::SpanGeometry;
use span_geometry::segments::segment_at;
use walk::{SpanWalk, StepVisitor, walk_span};

// The marking of cut steps in the masks of all cells.
#[derive(Drop)]
struct Marking<'a> {
    masks: &'a mut [u16],
}

impl StepVisitor for Marking<'_> {
    ghost ready = { MarkReady };

    ghost visited = { MarkVisited };

    fn crossed_directions(&self, walk: SpanWalk, cell: WalkPosition, changes: u16) -> u16 {
        walk.crossed_directions(cell, changes)
    }

    // Each cut step has its bit at this cell, the smaller of its two.
    fn visit(&mut self, walk: SpanWalk, cell: WalkPosition, directions: u16) {
        let c = walk.grid.index(cell);
        self.masks[c] |= directions;
    }

    ghost laws = { mark_laws };
}

// The cut steps of one span.
fn mark_span(grid: TerrainGrid, g: SpanGeometry, masks: &mut [u16])
    requires asked { SpanIn grid g }
    requires masks_long { grid.height * grid.width ≤ length masks.old }
    ensures { Marked (terrain_of grid.entry) masks.old masks.new (cut_span (terrain_of grid.entry) (segment_of g)) }
{
    let mut marking = Marking { masks };
    walk_span(grid, g, &mut marking);
}

// The span of four numbers, as a list has them: the endpoints, x before y.
pub fn span_of(span: [u64; NUMBERS_PER_SPAN]) -> SpanGeometry
    requires { SpanAtAsked span 0 }
    ensures { Made (segment_at span 0) result }
{
    SpanGeometry::new(segment_at(&span, 0))
}

// The cut steps of all spans, in masks of zeros. Never put into its caller: in one function with labelling and assessing, each loop has
// fewer registers, and a partition takes up to 8 percent more instructions.
#[inline(never)]
pub fn mark_spans(grid: TerrainGrid, spans: &[u64], masks: &mut [u16])
    requires checked { Checked grid.width grid.height grid.cells.now spans.now }
    requires sizes { (grid.height * grid.width ≤ length masks.old) × ((c : ℕ) → c < grid.height * grid.width → get_or masks.old c 0 ≡ 0) }
    ensures { SpansMarked grid.entry.width grid.entry.height grid.entry.cells.now spans.now masks.old masks.new }
{
    for span in spans.as_chunks::<NUMBERS_PER_SPAN>().0 {
        mark_span(grid, span_of(*span), masks);
    }
}
