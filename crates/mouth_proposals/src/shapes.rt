// The shape of a mouth, from its rows: `star` and `triangle_representative`.
ghost use Rattle.std.specs.Prelude.{◌≡◌, true, cond, ◌+◌, ◌*◌, ◌≤◌, length, eqb, None, Some, MatchOption};
ghost use Rattle.definitions.specs.Limits.{numbers_per_pair};
ghost use Rattle.definitions.specs.Scan.{any, all, filter, only_if};
ghost use Rattle.definitions.specs.Grid.{contains, pair_eq};
ghost use Rattle.definitions.specs.MouthShapes.{mouth_shape, distinct_regions, triangle_representative};
ghost use Rattle.context.specs.Shown.{pair_at, pairs_between};
ghost use Rattle.context.specs.Rows.{Stretch, pair_form};
ghost use Rattle.mouth_proposals.specs.Rows.{rows_of, shape_form, edges_form, TriangleOf};

use context::PartitionContext;
use context::pairs::{Pair, row_at};
use std::ops::Range;

// MouthShape of ramp_boundaries.rs: of one pair, or a star about an outer region; `shape_form` of specs/Rows.antt gives the inner ones.
#[derive(Clone, Copy, PartialEq, Eq)]
pub enum Shape {
    Single(Pair),
    Star(u32),
}

// The region of p whose answer is true, where just one is.
pub fn region_of(p: Pair, lo: bool, hi: bool) -> Option<u32>
    ensures { result ≡ cond lo (cond hi None (Some p.lo)) (cond hi (Some p.hi) None) }
{
    match (lo, hi) {
        (true, false) => Some(p.lo),
        (false, true) => Some(p.hi),
        _ => None,
    }
}

// Whether every one of the rows names region r.
fn in_all(pairs: &[u32], mut rows: Range<usize>, r: u32) -> bool
    requires { (rows.start ≤ rows.end) × (numbers_per_pair * rows.end ≤ length pairs.now) }
    ensures { result ≡ all (contains r) (pairs_between pairs.now rows.start rows.end) }
{
    rows.all(|k| row_at(pairs, k).contains(r))
}

// The star of two rows or more: exactly one region stands in all of them.
fn star_of(pairs: &[u32], rows: Range<usize>) -> Option<Shape>
    requires { (rows.start + 2 ≤ rows.end) × (numbers_per_pair * rows.end ≤ length pairs.now) }
    ensures { shape_form (pairs_between pairs.now rows.start rows.end) result ≡ mouth_shape true (pairs_between pairs.now rows.start rows.end) }
{
    let p = row_at(pairs, rows.start);
    let lo = in_all(pairs, rows.start..rows.end, p.lo);
    let hi = in_all(pairs, rows, p.hi);
    region_of(p, lo, hi).map(Shape::Star)
}

// The shape of mouth m, which is a full cut.
pub fn star(context: PartitionContext, m: usize) -> Option<Shape>
    requires { Stretch context.pairs.now context.starts.now m }
    ensures { shape_form (rows_of context.entry.pairs.now context.entry.starts.now m) result
        ≡ mouth_shape true (rows_of context.entry.pairs.now context.entry.starts.now m) }
{
    let rows = context.rows(m);
    match rows.end - rows.start {
        0 => None,
        1 => Some(Shape::Single(row_at(context.pairs, rows.start))),
        _ => star_of(context.pairs, rows),
    }
}

// The rows of a full cut that has two: the edges of a mouth or of a ramp.
#[derive(Clone, Copy)]
pub struct Edges {
    pub first: Pair,
    pub second: Pair,
}

impl Edges {
    // Those of boundary i, if it has two rows.
    fn of(context: PartitionContext, i: usize) -> Option<Self>
        requires { Stretch context.pairs.now context.starts.now i }
        ensures { MatchOption result
            (length (rows_of context.entry.pairs.now context.entry.starts.now i) ≡ 2 → ⊥)
            (λ e. rows_of context.entry.pairs.now context.entry.starts.now i ≡ edges_form e) }
    {
        let Range { start, end } = context.rows(i);
        if end - start != 2 {
            return None;
        }
        Some(Self {
            first: row_at(context.pairs, start),
            second: row_at(context.pairs, start + 1),
        })
    }

    // Whether one of the two names region r.
    fn name(self, r: u32) -> bool
        ensures { result ≡ any (contains r) (edges_form self) }
    {
        self.first.contains(r) | self.second.contains(r)
    }

    // Whether p is one of the two.
    fn have(self, p: Pair) -> bool
        ensures { result ≡ any (pair_eq (pair_form p)) (edges_form self) }
    {
        (p == self.first) | (p == self.second)
    }
}

// Whether the two rows have three regions.
fn has_three(mouth: Edges) -> bool
    ensures { result ≡ eqb (length (distinct_regions (edges_form mouth))) 3 }
{
    let Edges { first, second } = mouth;
    let two = first.hi != first.lo;
    let third = !first.contains(second.lo);
    let fourth = !first.contains(second.hi) & (second.hi != second.lo);
    (two & third & !fourth) | (two & !third & fourth) | (!two & third & fourth)
}

// Whether the rows of the ramp name each region of the mouth's.
fn all_named(mouth: Edges, ramp: Edges) -> bool
    ensures { result ≡ all (λ x. any (contains x) (edges_form ramp)) (distinct_regions (edges_form mouth)) }
{
    ramp.name(mouth.first.lo)
        & ramp.name(mouth.first.hi)
        & ramp.name(mouth.second.lo)
        & ramp.name(mouth.second.hi)
}

// Whether just one of the mouth's rows is one of the ramp's.
fn one_edge(mouth: Edges, ramp: Edges) -> bool
    ensures { result ≡ eqb (length (filter (λ e. any (pair_eq e) (edges_form ramp)) (edges_form mouth))) 1 }
{
    let first = ramp.have(mouth.first);
    let second = ramp.have(mouth.second);
    (first & !second) | (!first & second)
}

fn is_triangle(mouth: Edges, ramp: Edges) -> bool
    ensures { triangle_representative (edges_form mouth) (edges_form ramp) ≡ only_if result (distinct_regions (edges_form mouth)) }
{
    has_three(mouth) & all_named(mouth, ramp) & one_edge(mouth, ramp)
}

// The edges of mouth m where it and ramp a, both full cuts, form a triangle; its regions are those of the mouth's edges.
pub fn triangle_representative(context: PartitionContext, m: usize, a: usize) -> Option<Edges>
    requires { Stretch context.pairs.now context.starts.now m × Stretch context.pairs.now context.starts.now a }
    ensures { TriangleOf (rows_of context.entry.pairs.now context.entry.starts.now m)
        (rows_of context.entry.pairs.now context.entry.starts.now a) result }
{
    let mouth = Edges::of(context, m)?;
    let ramp = Edges::of(context, a)?;
    is_triangle(mouth, ramp).then_some(mouth)
}
