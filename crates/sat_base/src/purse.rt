//! Budgets.
//!
//! A purse pays for learnt clauses, one unit each. Whoever searches takes the units out; nobody puts any in.

/// How many learnt clauses may still be paid for.
#[derive(Debug, Drop)]
pub struct Purse {
    pub left: u64,
}
