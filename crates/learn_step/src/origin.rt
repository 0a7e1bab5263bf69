//! What a core begins with.
use sat_base::Lit;

/// What was found false under assumptions.
#[derive(Clone, Copy)]
pub enum Origin {
    /// The clause of this id.
    Conflict(u64),
    /// This assumption.
    Assumption(Lit),
}
