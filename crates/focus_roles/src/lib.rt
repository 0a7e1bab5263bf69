//! A problem narrowed to some of its groups, and the role of each group in the minimal conflicts.
//!
//! Where a question is about a few groups, [`narrow`] takes the clauses of the others out of a problem. The background, the
//! numbers of the groups and the variables stay:
//!
//! ```text
//! let narrowed = narrow(alloc, &problem, &focus)?;
//! ```
//!
//! And [`roles_of`] says of each group whether it is in every minimal conflict, in some or in none, by the records of an
//! enumeration that is over:
//!
//! ```text
//! let roles = roles_of(alloc, problem.groups(), &closing.records)?;
//! ```
//!
//! Start reading at `specs/Narrow.antt`, and then at `specs/Laws.antt`, which says what becomes of the minimal conflicts and
//! the minimal corrections ([`laws`]); `specs/Rows.antt` has worked examples. How the sets of the narrowed problem are found
//! is for other crates. `specs/Told.antt` says of which records the roles are told.
#![tactic(auto)]

pub mod laws;
mod narrowing;
mod roles;

pub use narrowing::narrow;
pub use roles::roles_of;
