//! Entries of the trail.
use sat_base::Lit;

/// A literal that is true, and what a derivation names for it.
#[derive(Clone, Copy)]
pub struct Entry {
    pub lit: Lit,
    /// The id of the clause that forced it. A decision has none.
    pub reason: Option<u64>,
    /// The id of the step that holds this literal alone, where one was logged.
    pub unit: Option<u64>,
}
