// Where a span's line passes between the cells of columns, or rows, between the span's ends: the first place past it, from one column to the next by additions.

#![tactic(auto)]

ghost use Rattle.std.specs.Prelude.{◌≡◌, ℕ, ◌+◌, ◌≤◌, ◌<◌};
ghost use Rattle.definitions.specs.Limits.{max_side};
ghost use Rattle.span_geometry.specs.Shapes.{segment_of};
ghost use Rattle.span_geometry.specs.Strips.{Usable, strip_of};
ghost use Rattle.line_crossings.specs.Crossings.{Between, tie_of, Crossing, NextAsked, Gentle, Close};

use definitions::limits::PIXELS_PER_WALK_CELL;
use span_geometry::SpanGeometry;
use span_geometry::segments::middle_of;
use span_geometry::strips::Strip;

// The first place past the line, and by how much it is: its middle times the run, less the line's total.
#[derive(Clone, Copy)]
pub struct Place {
    pub first: u64,
    pub rest: u64,
}

// 1 where a centre on the line counts with those before it, else 0. A side value of zero counts with the positive side.
pub fn tie_of(g: SpanGeometry, strip: Strip) -> u64
    requires { strip ≡ strip_of (segment_of g) }
    ensures { result ≡ tie_of (segment_of g) }
{
    u64::from(!strip.columns && g.ends.a.y <= g.ends.b.y)
}

// The first place past the line in column, or row, k.
pub fn first_place(strip: Strip, tie: u64, k: u64) -> Place
    requires { Usable strip × Between strip k × (tie ≤ 1) × (k < max_side) }
    ensures { Crossing strip tie k result.first result.rest }
{
    let run = strip.major1 - strip.major0;
    let reached = middle_of(k) - strip.major0;
    let step = PIXELS_PER_WALK_CELL * run;
    let total = strip.minor0 * (run - reached) + strip.minor1 * reached + tie;
    let raised = total + (step / 2 - 1);
    Place {
        first: raised / step,
        rest: step - 1 - raised % step,
    }
}

// The first place past the line in the next column, or row, from that of a column, or row, before it.
pub fn next_place(strip: Strip, place: Place) -> Place
    requires line { Usable strip × Gentle strip }
    requires some { (tie k : ℕ) × NextAsked strip tie k place.first place.rest }
    ensures crossing { (tie k : ℕ) → NextAsked strip tie k place.first place.rest → Crossing strip tie (k + 1) result.first result.rest }
    ensures close { Close place.first result.first }
{
    let step = PIXELS_PER_WALK_CELL * (strip.major1 - strip.major0);
    if strip.minor0 <= strip.minor1 {
        let rise = PIXELS_PER_WALK_CELL * (strip.minor1 - strip.minor0);
        if place.rest < rise {
            Place {
                first: place.first + 1,
                rest: place.rest + (step - rise),
            }
        } else {
            Place {
                first: place.first,
                rest: place.rest - rise,
            }
        }
    } else {
        let fall = PIXELS_PER_WALK_CELL * (strip.minor0 - strip.minor1);
        if place.rest + fall < step {
            Place {
                first: place.first,
                rest: place.rest + fall,
            }
        } else {
            Place {
                first: place.first - 1,
                rest: place.rest + fall - step,
            }
        }
    }
}
