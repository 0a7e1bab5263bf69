//! From an unsatisfiable set of groups to a minimal conflict.
//!
//! A set that an [`Oracle`](evidence_rec::Oracle) has just answered to be unsatisfiable is shrunk to a minimal conflict
//! within it, with its evidence: a refutation of the set, and for each of its groups an assignment that satisfies the
//! background and the others.
//!
//! ```text
//! match shrink(alloc, &mut oracle, &problem, &core, turn, &mut purse)? {
//!     Shrunk::Done(record) => .., // a `Record::Conflict`
//!     Shrunk::Dry(asked) => ..,   // the purse is empty
//! }
//! ```
//!
//! `shrink_keeping` does the same and is given groups that it tries last, for who looks for conflicts that have them.
//!
//! Start reading at `specs/Shrunk.antt`. Which of several minimal conflicts is found is not told, nor that it is a
//! smallest one, or has a group that was tried last.
#![tactic(auto)]

mod candidate;
mod deletion;
mod order;
mod shrunk;

pub use deletion::{shrink, shrink_keeping};
pub use shrunk::Shrunk;
