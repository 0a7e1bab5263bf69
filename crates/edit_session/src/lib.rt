//! What is known of a problem carried over to a longer one.
//!
//! A problem gets longer by clauses in groups that are new, over variables that may be new: see [`first_break`], which tells
//! whether that is all, or where else the two differ. Then the old conflicts are conflicts still, and each old correction
//! grows into one of the longer problem:
//!
//! ```text
//! if first_break(&old, &new).is_none() {
//!     match carry(alloc, &mut oracle, &old, &records, &new, &mut purse)? {
//!         Carried::Opening(opening) => .., // records of the new problem
//!         Carried::Dry(asked) => ..,       // the purse is empty
//!     }
//! }
//! ```
//!
//! Start reading at `specs/Extends.antt` and `specs/Opening.antt`; `specs/Carried.antt` says what becomes of a conflict's
//! evidence, and the module `laws` what is proved of these definitions alone. What is new in the longer problem, beside what
//! the old records grow into, is not looked for here.
#![tactic(auto)]

mod carried;
mod carrying;
mod conflicts;
mod corrections;
mod derivations;
mod extension;
pub mod laws;
mod numbers;
mod widening;
mod witnesses;

pub use carried::Carried;
pub use carrying::{carry, keep_conflicts, regrow_corrections};
pub use corrections::{Start, start_at};
pub use extension::first_break;
