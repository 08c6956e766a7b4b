// The lists that pass 3 reads.

use context::pairs::Pair;
use definitions::limits::MAX_ENTRIES;

// What pass 3 reads of a partition: the boundaries as lent, the full pair of each, how many incidents each region has, the marks of the regions, odd where one
// is anchored, and how many boundaries and regions there are.
// Kept: `full` is not cut to `count` pairs: a boundary listed as a byte indexes an array of 256 without a bound, where a slice would ask for one.
// Nor is another list: `count` would be a ninth of the length of `boundaries` then, and `regions` the length of `counts`, which say less than the two names.
#[derive(Clone, Copy)]
pub struct JunctionLists<'a> {
    pub boundaries: &'a [u64],
    pub full: &'a [Option<Pair>; MAX_ENTRIES],
    pub counts: &'a [u32],
    pub marks: &'a [u16],
    pub count: usize,
    pub regions: usize,
}
