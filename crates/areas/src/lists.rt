// The lists that a partition fills, lent together.

// One label a cell, one mask of cut steps a cell, a queue of at least as many numbers to work in, the tallies of each span, and the rows of pairs.
#[derive(Drop)]
pub struct PartitionLists<'a> {
    pub labels: &'a mut [u32],
    pub masks: &'a mut [u16],
    pub queue: &'a mut [u32],
    pub tallies: &'a mut [u32],
    pub pairs: &'a mut [u32],
}
