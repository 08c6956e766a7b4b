// Regions that were found, where more than one need not be told apart.

#[derive(Clone, Copy, PartialEq, Eq)]
pub enum FoundRegions {
    None,
    One(u32),
    Several,
}
