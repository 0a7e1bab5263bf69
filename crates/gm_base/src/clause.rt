//! Clauses in groups, and lists of them.
use sat_base::{Lits, Row};

/// A clause in its group, where group 0 is the background.
#[derive(Drop)]
pub struct Clause {
    pub group: u32,
    pub lits: Lits,
}

/// Clauses in the order of their file.
pub type Clauses = Row<Clause>;
