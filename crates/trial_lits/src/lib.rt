//! Literals, ids and numbers in the calls of scripts, and in the lines that they print.
//!
//! A player of a script takes what a call names by [`lit_at`], [`lits_at`], [`ids_at`] and the like, which answer none where the
//! word there is no such thing, and tells its answers a line each, by [`tell_lits`], [`tell_id`] and the like:
//!
//! ```text
//! let Some(lits) = lits_at(alloc, step, 1, vars)? else {
//!     return Ok(false);
//! };
//! let id = store.add(&lits, true)?;
//! tell_number(out, "id", id)?;
//! ```
//!
//! Start reading at `reading.rt`.
#![tactic(auto)]

mod reading;
mod telling;

pub use reading::{MOST, behind, ids_at, is_among, lit_at, literal, lits_at, var_at, vars_at};
pub use telling::{
    add, add_id, add_ids, add_lit, add_lits, tell, tell_id, tell_lit, tell_lits, tell_number,
    tell_signed,
};
