//! Checks LRAT steps, of which nobody who wrote them is trusted.
//!
//! A [`Checker`] holds the clauses that it was given, under the ids 1, 2 and so on, and takes steps: an id, a clause and
//! hints. A step is accepted where its clause follows from the clauses so far by unit propagation along the hints, and
//! then later hints may name it:
//!
//! ```text
//! let mut checker = Checker::new(alloc, &inputs, vars)?;
//! match checker.step(id, &lits, Hints::Wide(&hints))? {
//!     Checked::Ok => ..,           // checker.clause(id) is this clause
//!     Checked::Refused(why) => .., // nothing has changed
//! }
//! ```
//!
//! A [`Marks`] is the table in which literals are marked as false, for whoever walks along hints.
//!
//! Start reading at `specs/Refusal.antt`, which says what a step is refused for, and at `specs/Rows.antt`, which has a row
//! for each. That a clause that follows is implied by the clauses is no matter of this crate, nor are deletions and the
//! negative hints of RAT steps, which it doesn't read.
#![tactic(auto)]

mod checker;
mod clauses;
mod follow;
mod marks;
mod why;

pub use checker::{Checked, Checker};
pub use marks::Marks;
pub use why::{Counts, Mismatch, Why};
