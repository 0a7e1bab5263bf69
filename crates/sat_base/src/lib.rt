//! What a solver and a checker of its steps speak of: literals, assignments, and the steps by which clauses follow.
//!
//! A [`Lit`] is a variable or its negation, and an [`Assign`] gives each variable a truth value. A [`Derivation`] is the steps
//! by which a clause follows from others, each by unit propagation along its hints:
//!
//! ```text
//! let mut builder = DerivationBuilder::new(alloc, 6);
//! builder.push(4, &[y.negated()], &[1, 2])?;
//! builder.push(6, &[], &[4, 3])?;
//! let derivation = builder.finish(alloc)?;
//! ```
//!
//! Both are made by a builder, and shared once they are finished: a copy is one more reference, so that one assignment or
//! one derivation can stand in many records.
//!
//! A [`Row`] is a list of whatever there are many of.
//!
//! For those who search, a [`WorkList`] hands out numbers from the greatest down, and a [`Purse`] says how many clauses may
//! still be learnt.
//!
//! Start reading at `specs/Literals.antt` and `specs/Derivation.antt`. Nothing here knows of groups: those are of `gm_base`,
//! which stands on this crate.
#![tactic(auto)]

mod arena;
mod assign;
mod bits;
mod cone;
mod crossing;
mod derivation;
mod hints;
mod lit;
mod numbering;
mod purse;
mod row;
mod step_arena;
mod steps;
mod words;
mod worklist;

pub use arena::end_of;
pub use assign::{Assign, AssignBuilder};
pub use derivation::{Derivation, DerivationBuilder};
pub use hints::{Hints, Ids, are_small, push_narrow};
pub use lit::{Lit, Lits};
pub use numbering::Numbering;
pub use purse::Purse;
pub use row::Row;
pub use step_arena::{SharedStep, StepArena};
pub use steps::Step;
pub use worklist::WorkList;
