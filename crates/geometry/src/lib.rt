// The geometry of boundaries, from context.rs and ramp_boundaries.rs: points in doubles, endpoints in pixels, how far they are apart, and when one boundary
// represents another.
//
// Every float operation stands in the Rust's order. Within a map no coordinate is above 8,192, so that no hypotenuse is refused.

#![tactic(auto)]

pub mod boundaries;
pub mod endpoints;
pub mod numbers;
pub mod points;
pub mod ramp_geometry;
pub mod widths;

pub use span_geometry::Segment;

// A point: pixels, whole or half.
#[derive(Clone, Copy)]
pub struct Point {
    pub x: f64,
    pub y: f64,
}
