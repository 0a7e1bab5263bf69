//! Problems of clauses in groups, sets of groups, and what a minimal conflict and a minimal correction of a problem are.
//!
//! A [`Problem`] is a list of clauses, each in a group. Group 0 is the background, which is always present, and a
//! [`GroupSet`] chooses among the others. An [`Assign`] gives each variable a truth value, and `Problem::holds` says
//! whether it satisfies the background and a set of groups:
//!
//! ```text
//! let set = GroupSet::new(alloc).with(alloc, 3)?;
//! let assign = AssignBuilder::all_false(alloc, problem.vars())?.finish(alloc)?;
//! if problem.holds(&set, &assign) { .. }
//! ```
//!
//! Literals, assignments and derivations are those of `sat_base`, and can be had from here too. For those who enumerate, a
//! [`Kind`] says whether a minimal set is a conflict or a correction, a [`Side`] which sets it takes out of the map,
//! `specs/Explored.antt` which sets all that was found has explored, a [`Role`] in which conflicts a group is, and
//! `specs/Roles.antt` when what was found tells it. A set that is only kept is a [`CompactSet`].
//!
//! Start reading at `specs/Sets.antt`, `specs/Problem.antt` and `specs/Minimal.antt`, on which every promise of the
//! program stands. `specs/Rows.antt` has worked examples that the definitions compute, and the module `laws` what is
//! proved of the definitions alone. Nothing here searches: how the sets are found is for the crates above.
#![tactic(auto)]

mod clause;
mod compact_set;
mod group_set;
mod index;
mod kind;
pub mod laws;
mod problem;
mod role;
mod selectors;
mod sets;

pub use clause::{Clause, Clauses};
pub use compact_set::CompactSet;
pub use group_set::GroupSet;
pub use index::Placed;
pub use kind::{Kind, Side};
pub use problem::{Problem, clause_fits};
pub use role::Role;
pub use sat_base::{
    Assign, AssignBuilder, Derivation, DerivationBuilder, Hints, Lit, Lits, Purse, Step,
};
pub use selectors::{selector, write_with_selector};
pub use sets::Sets;
