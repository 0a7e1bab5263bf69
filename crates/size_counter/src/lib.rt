//! A sequential counter: clauses by which at most so many of some groups are in, or are out.
//!
//! ```text
//! let mut names = Naming::new(alloc, Kind::Correction);
//! for record in records { names.add(record.kind(), record.set().as_slice())?; }
//! let level = names.level(alloc, groups, most)?;        // at most so many groups are out
//! let Some(vars) = level.vars() else { .. };            // more variables than a literal can name
//! let clause = level.clause(alloc, at)?;                // one of its `level.len()` clauses
//! let limit = level.limit();                            // "more than that are out", denied
//! ```
//!
//! Groups are counted in an order, one row each. In a row, the variable of a column says that of the groups up to it at
//! least as many as the column are counted (Sinz 2005). Group g is variable g, and the counter's variables stand behind
//! those of all groups, row by row, so a group more is a row more behind what is there.
//!
//! The order is that in which sets name the groups: a minimal set of a kind is made of groups of the sets of the other
//! kind. A group that stands alone in such a set is in each minimal set, so it is not counted but taken off the bound. If no
//! more groups are left than may count, there is no counter, and a level costs nothing however large the bound is.
//!
//! The counter takes no set from who asks about few groups, and leaves none of too many: each assignment of the groups that
//! counts at most the bound can be extended to the counter's variables, and no other can. Both are laws, in `laws`.
//!
//! Start reading at `specs/Counter.antt`, then `specs/Levels.antt`; `specs/Rows.antt` has them worked out by hand. Not said
//! here: what a derivation over these clauses shows, and that a solver is quick with them.
#![tactic(auto)]

mod cells;
mod counter;
pub mod laws;
mod level;
mod names;
mod naming;
mod place;

pub use counter::{add_row, counter_clause, counter_len, counter_vars, limit_lit};
pub use level::Level;
pub use naming::Naming;
