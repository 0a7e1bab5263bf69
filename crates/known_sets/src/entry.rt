//! Sets of groups with what shows them.
use gm_base::{Derivation, GroupSet};

/// A set of groups, and what shows something of it.
#[derive(Drop)]
pub struct Entry<E> {
    pub set: GroupSet,
    pub evidence: E,
}

/// A set that is unsatisfiable with the background, and its refutation.
pub type Refuted = Entry<Derivation>;
