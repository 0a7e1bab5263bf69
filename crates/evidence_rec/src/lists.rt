//! Lists of witnesses, of refutations and of records.
use crate::record::{Record, Refutation};
use gm_base::Assign;
use sat_base::Row;

/// Assignments, in order.
pub type Witnesses = Row<Assign>;

/// Refutations, in order.
pub type Proofs = Row<Refutation>;

/// Records, in order.
pub type Records = Row<Record>;
