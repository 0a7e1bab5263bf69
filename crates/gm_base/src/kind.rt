//! Kinds of minimal sets, and the two sides of the map.

/// What a minimal set of groups is.
#[derive(Clone, Copy, Debug, PartialEq, Eq)]
pub enum Kind {
    Conflict,
    Correction,
}

/// Which sets a block takes out of the map.
#[derive(Clone, Copy, PartialEq, Eq)]
pub enum Side {
    /// Those that hold all groups of the set: it is a conflict.
    Up,
    /// Those that have no group of the set: it is a correction.
    Down,
}
