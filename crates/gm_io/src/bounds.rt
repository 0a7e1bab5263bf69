//! The bounds of an enumeration.

use map_core::Goal;

/// How many workers there are, how many clauses may be learnt, how many sets recorded, what is wanted, and whether a journal is
/// kept.
#[derive(Clone, Copy)]
pub struct Bounds {
    pub jobs: u32,
    pub conflicts: u64,
    pub limit: u64,
    pub goal: Goal,
    pub journal: bool,
}
