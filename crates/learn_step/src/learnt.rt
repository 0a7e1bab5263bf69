//! What conflict analysis gives.
use sat_base::Lit;
use smallvec::SmallVec;

/// A clause, and the hints by which it follows by unit propagation.
#[derive(Drop)]
pub struct Learnt {
    pub lits: Vec<Lit>,
    /// The ids of clauses, in the order of propagation.
    pub hints: SmallVec<u64, 32>,
    /// The level to go back to, where the clause forces its first literal.
    pub back_level: u32,
}
