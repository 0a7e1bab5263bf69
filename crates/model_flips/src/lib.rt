//! Assignments that are made to satisfy more groups by flipping variables.
//!
//! An assignment that a solver found for a few groups leaves others false by chance, and often some flips make them true.
//! [`Flips`] takes an assignment and tries one group after the other: its falsified clauses are made true by the variable
//! that breaks fewest others, at most [`MOST_FLIPS`] a group, and all is put back where that does not do. The search by
//! local repair is that of GSAT and WalkSAT (Selman, Levesque and Mitchell 1992; Selman, Kautz and Cohen 1994).
//!
//! ```text
//! flips.begin(&assign);
//! flips.try_group(7);
//! let out = flips.left_out(alloc)?;                       // the groups that it makes false now
//! if let Some(assign) = flips.shown(alloc, &out)? { .. }  // it satisfies the background and all other groups
//! ```
//!
//! Nothing rests on the flips: what is handed out is tested clause by clause, and the test is all that the promise of
//! `shown` stands on. Not said: that a group which could be made true is.
//!
//! [`Rotation`] flips one variable of an assignment that is known to satisfy all groups but some, and tells at the cost of
//! the clauses that have the variable which groups are left out then. Start there at `specs/Rotation.antt`.
//! [`Rotation::exchanged`] asks that of the groups of one set alone. [`Rotation::repaired`] flips one variable after the other, until certain groups are true.
#![tactic(auto)]

mod exchange;
mod flips;
mod occurrences;
mod repair;
mod rotation;
mod standing;

pub use exchange::Exchanged;
pub use flips::{Flips, MOST_FLIPS, tested};
pub use rotation::{Rotation, Turned};
