// The rows among which is chosen.

use junction_proposals::lists::JunctionLists;
use junction_proposals::proposals::Candidate;

// What the choice among the proposals reads: the lists of the partition, and the rows found.
#[derive(Clone, Copy)]
pub struct FoundRows<'a> {
    pub lists: &'a JunctionLists<'a>,
    pub rows: &'a [Candidate],
}
