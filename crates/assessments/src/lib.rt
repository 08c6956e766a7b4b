// The second half of `partition_by_spans` of areas.rs: of each span how many edges it removes and separates, and its pairs of regions.

#![tactic(auto)]

pub mod ascending_rows;

ghost use Rattle.std.specs.Prelude.{◌≡◌, [], ◌∷◌, ◌+◌, ◌-◌, ◌*◌, ◌≤◌, ◌<◌, length};
ghost use Rattle.definitions.specs.Grid.{at};
ghost use Rattle.grid_steps.specs.Grids.{terrain_of};
ghost use Rattle.span_geometry.specs.Shapes.{segment_of};
ghost use Rattle.cut_steps.specs.Contract.{Checked};
ghost use Rattle.cut_steps.specs.CutSteps.{cut_span};
ghost use Rattle.cut_steps.specs.Marking.{Shown};
ghost use Rattle.cut_steps.specs.Walks.{SpanIn};
ghost use Rattle.assessments.specs.Held.{pair_of, room_of};
ghost use Rattle.assessments.specs.Assess.{nothing, max_edges, Counting, Assesses, step_in_lem, Leads};
ghost use Rattle.assessments.specs.Assessing.{Keeps, CountingIn, AssessesIn, AssessReady, AssessVisited, assess_laws};
ghost use Rattle.assessments.specs.Contract.{AssessAsked, SpansAssessed};

use ascending_rows::put_pair;
use cut_steps::span_of;
use cut_steps::walk::{SpanWalk, StepVisitor, walk_span};
use definitions::limits::{NUMBERS_PER_PAIR, NUMBERS_PER_SPAN, TALLIES_PER_SPAN};
use grid_steps::grid::{Direction, EAST, SOUTH, SOUTH_EAST, SOUTH_WEST, TerrainGrid, WalkPosition};
use grid_steps::is_set;
use region_pairs::Pair;
use span_geometry::SpanGeometry;

// What is found of a span so far: the counts of its removed and separated edges, the end of its rows in the list of pairs, and the row of the last pair, a
// hint that is never relied on.
#[derive(Clone, Copy)]
struct BoundaryAssessment {
    pub removed: u32,
    pub separated: u32,
    pub end: usize,
    pub row: usize,
}

// The assessment of a span: what is lent, the span's number, the first of its rows, and what is found so far.
#[derive(Drop)]
struct Assessing<'a> {
    masks: &'a [u16],
    labels: &'a [u32],
    pairs: &'a mut [u32],
    span: u32,
    first: usize,
    found: BoundaryAssessment,
}

impl Assessing<'_> {
    // One cut step, between two cells.
    fn step(&mut self, from: usize, to: usize)
        requires labels_room { (from < length self.old.labels.now) × (to < length self.old.labels.now) }
        requires counting { CountingIn (max_edges - 1) self.old }
        ensures kept { Keeps self.old self.new }
        ensures still_counting { CountingIn (self.old.found.removed + 1) self.new }
        ensures assessed { AssessesIn (pair_of from to ∷ []) self.old self.new }
    {
        self.found.removed += 1;
        let left = self.labels[from];
        let right = self.labels[to];
        if left == right {
            return;
        }
        let pair = Pair {
            lo: left.min(right),
            hi: left.max(right),
        };
        let rows = self.first..self.found.end;
        let put = put_pair(self.pairs, rows, self.found.row, self.span, pair);
        self.found.separated += 1;
        self.found.end = put.end;
        self.found.row = put.row;
    }

    // The step from a cell in a direction, if the mask has it.
    fn direction(&mut self, grid: TerrainGrid, cell: WalkPosition, mask: u16, direction: Direction)
        requires leads { Leads grid.width grid.height cell.x cell.y mask × (direction.dx ≤ 2) × (direction.dy ≤ 2) }
        requires labels_long { grid.height * grid.width ≤ length self.old.labels.now }
        requires counting { CountingIn (max_edges - 1) self.old }
        ensures kept { Keeps self.old self.new }
        ensures still_counting { CountingIn (self.old.found.removed + 1) self.new }
        ensures assessed { AssessesIn (step_in_lem grid.entry.width cell.x cell.y mask (at direction.dx direction.dy)) self.old self.new }
    {
        if !is_set(mask, direction.bit()) {
            return;
        }
        let from = grid.index(cell);
        let to = grid.index(cell.towards(direction));
        self.step(from, to);
    }
}

impl StepVisitor for Assessing<'_> {
    ghost ready = { AssessReady };

    ghost visited = { AssessVisited };

    // Which of the changes of sides are of steps, the masks say.
    fn crossed_directions(&self, walk: SpanWalk, cell: WalkPosition, changes: u16) -> u16 {
        changes & self.masks[walk.grid.index(cell)]
    }

    fn visit(&mut self, walk: SpanWalk, cell: WalkPosition, directions: u16) {
        if directions == 0 {
            return;
        }
        let grid = walk.grid;
        self.direction(grid, cell, directions, EAST);
        self.direction(grid, cell, directions, SOUTH);
        self.direction(grid, cell, directions, SOUTH_WEST);
        self.direction(grid, cell, directions, SOUTH_EAST);
    }

    ghost laws = { assess_laws };
}

// The steps that a span cuts. Its rows begin at `first`.
fn assess_span(
    grid: TerrainGrid,
    g: SpanGeometry,
    masks: &[u16],
    labels: &[u32],
    pairs: &mut [u32],
    span: u32,
    first: usize,
) -> BoundaryAssessment
    requires asked { SpanIn grid g }
    requires labels_long { grid.height * grid.width ≤ length labels.now }
    requires shown { Shown (terrain_of grid) masks.now (cut_span (terrain_of grid) (segment_of g)) }
    requires first_within { first ≤ room_of pairs.old + 1 }
    ensures still_counting { Counting pairs.new first max_edges result }
    ensures assessed { Assesses labels.now span first (cut_span (terrain_of grid.entry) (segment_of g)) (nothing first) pairs.old result pairs.new }
{
    let mut assessing = Assessing {
        masks,
        labels,
        pairs,
        span,
        first,
        found: BoundaryAssessment {
            removed: 0,
            separated: 0,
            end: first,
            row: first,
        },
    };
    walk_span(grid, g, &mut assessing);
    assessing.found
}

// Assesses every span by the labels of the partition and the masks of cut steps: two tallies a span, and the rows of pairs as far as there is room. Gives how
// many rows there are, or none where they are more than the list has room for. Never put into its caller, for the reason
// that stands at `mark_spans` of cut_steps.
#[inline(never)]
pub fn assess_spans(
    grid: TerrainGrid,
    masks: &[u16],
    spans: &[u64],
    labels: &[u32],
    tallies: &mut [u32],
    pairs: &mut [u32],
) -> Option<usize>
    requires checked { Checked grid.width grid.height grid.cells.now spans.now }
    requires asked { AssessAsked grid.width grid.height grid.cells.now masks.now spans.now labels.now tallies.old }
    ensures { SpansAssessed grid.entry.width grid.entry.height grid.entry.cells.now spans.now labels.now tallies.old
        pairs.old tallies.new pairs.new result }
{
    let mut end = 0;
    for (s, &span) in spans.as_chunks::<NUMBERS_PER_SPAN>().0.iter().enumerate() {
        let g = span_of(span);
        let a = assess_span(grid, g, masks, labels, pairs, s as u32, end);
        let at = TALLIES_PER_SPAN * s;
        tallies[at] = a.removed;
        tallies[at + 1] = a.separated;
        end = a.end;
    }
    (end <= pairs.len() / NUMBERS_PER_PAIR).then_some(end)
}
