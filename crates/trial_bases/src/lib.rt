//! What the calls of scripts name, for more than one program of trials: steps of derivations, sets of groups, and problems.
//!
//! ```text
//! let id = id_at(step, 1);                            // the id at a place of the call
//! let is_known = push_step(&mut proof, alloc, step)?; // an id, literals, 0 and hints
//! let set = set_from(alloc, step, 1)?;                // the groups from a place on
//! let problem = problem_of(alloc, text)?;             // that of a GCNF text
//! ```
//!
//! Start reading at `derivations.rt`. It is apart, so that it is proved once, beside the crates of the program.
#![tactic(auto)]

mod derivations;
mod problems;
mod sets;

pub use derivations::{id_at, lit_at, push_step};
pub use problems::{problem_of, push_clause};
pub use sets::set_from;
