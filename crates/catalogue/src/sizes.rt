// How many numbers an entry of each list has, by the names of specs/. The contracts of the functions that use them tie the two.
pub const NUMBERS_PER_ACCESSION: usize = 4;

pub const NUMBERS_PER_TERM: usize = 7;

pub const NUMBERS_PER_ENTRY: usize = 4;
