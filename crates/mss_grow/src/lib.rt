//! From a satisfiable set of groups to a minimal correction.
//!
//! A set that an assignment satisfies together with the background is grown to a maximal one. The groups outside that are
//! a minimal correction, which comes with its evidence: an assignment that satisfies all others, and for each group of
//! the correction a refutation of the others together with it.
//!
//! ```text
//! match grow(alloc, &mut oracle, &problem, &seed, &assign, turn, &mut purse)? {
//!     Grown::Done(record) => .., // a `Record::Correction`
//!     Grown::Dry(asked) => ..,   // the purse is empty
//! }
//! ```
//!
//! `grow_down` does the same from a satisfiable set of few groups, and asks about all groups first.
//!
//! Start reading at `specs/Grown.antt`. Which of several maximal sets is found is not told, nor that it is a largest one.
#![tactic(auto)]

mod addition;
mod descent;
mod grown;
mod growth;

pub use addition::grow;
pub use descent::grow_down;
pub use grown::Grown;
