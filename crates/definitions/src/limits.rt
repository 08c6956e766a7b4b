// The limits of SPECIFICATION 17 and how many numbers an entry of each list has, by the names of specs/Limits.antt. The contracts of the functions
// that use them tie the two.
pub const MAX_SIDE: u64 = 1024;

pub const MAX_ENTRIES: usize = 256;

pub const NUMBERS_PER_SPAN: usize = 4;

pub const NUMBERS_PER_BOUNDARY: usize = 9;

pub const NUMBERS_PER_ANCHOR: usize = 2;

pub const TALLIES_PER_SPAN: usize = 2;

pub const NUMBERS_PER_PAIR: usize = 3;

pub const NUMBERS_PER_ROW: usize = 5;

pub const PIXELS_PER_WALK_CELL: u64 = 8;

pub const MAX_WIDTH_BITS: u64 = 0x40F0_0000_0000_0000; // 65,536
