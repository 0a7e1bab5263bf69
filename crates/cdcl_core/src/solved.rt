//! The answers of the solver.
use sat_base::Assign;

/// What a search ended with.
#[derive(Drop)]
pub enum Solved {
    /// An assignment that makes each clause and each assumed literal true.
    Sat(Assign),
    /// The id of a core step in the log: its clause has negated assumed literals only.
    Unsat(u64),
    /// The purse is empty, and a conflict stands from which nothing could be learnt.
    Dry,
}
