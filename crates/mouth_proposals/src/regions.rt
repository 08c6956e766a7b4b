// What pass 1 reads of each region: how many incidents it has, and its mark, which is odd where the region is anchored.
ghost use Rattle.std.specs.Prelude.{◌≡◌, ◌-◌, ◌≤◌, length, get_or};
ghost use Rattle.mouth_proposals.specs.Outers.{mark_at, inner_fits};

use crate::approaches::Sides;
use context::region_marks;

#[derive(Clone, Copy)]
pub struct RegionMarks<'a> {
    pub counts: &'a [u32],
    pub marks: &'a [u16],
}

impl RegionMarks<'_> {
    pub fn is_anchored(self, r: u32) -> bool
        requires { (1 ≤ r) × (r ≤ length self.marks.now) }
        ensures { result ≡ mark_at self.entry.marks.now r }
    {
        region_marks::is_anchored(self.marks, r)
    }

    pub fn incident_count(self, r: u32) -> u32
        requires { (1 ≤ r) × (r ≤ length self.counts.now) }
        ensures { result ≡ get_or self.entry.counts.now (r - 1) 0 }
    {
        self.counts[r as usize - 1]
    }

    // Whether region s of a star with these sides fits.
    pub fn fits(self, sides: Sides, s: u32) -> bool
        requires { (1 ≤ s) × ((s ≤ length self.counts.now) × (s ≤ length self.marks.now)) }
        ensures { result ≡ inner_fits self.entry.marks.now self.entry.counts.now sides.outer sides.approach s }
    {
        (s == sides.outer)
            | (!self.is_anchored(s) & ((s == sides.approach) | (self.incident_count(s) == 1)))
    }
}
