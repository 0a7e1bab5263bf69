//! The answer of propagation.

/// What propagation ended with.
#[derive(Clone, Copy)]
pub enum Propagated {
    /// No live clause is falsified or unit.
    Fixpoint,
    /// All literals of the clause of this id, which is live, are false.
    Conflict(u64),
}
