//! A tally under a turn lock, and threads that add to it at once.
//!
//! It shows what the lock's public clauses are worth: a book, workers that share it, and a theorem on what they leave.
//!
//! - [`Tally`] is the book. A call adds a number and is told the sum so far; an entry says who added how much and what
//!   the sum was then. It has room for 100 entries of each seat, so a call asks that the seat has made fewer.
//! - A [`Worker`] has a seat of its own, makes turns with it and keeps the replies. Workers run at once over
//!   `for_each_mut` ([`work_all`]) or in the two calls of a `join` ([`work_both`]).
//! - [`count_together`] makes the tally, the lock and a worker for each seat, lets each add 1 so often, and closes the
//!   lock. Its contract is the theorem: the history has exactly so many entries of each seat and no others, each of
//!   which added 1, their replies are the sums so far, and each worker was told the replies of its own entries in
//!   their order. [`count_by_two`] says the same of two workers in a `join`. Both are proved from the public clauses of
//!   [`hire`], [`work_all`] or [`work_both`], and [`settle`], and these from those of the lock.
//!
//! ```rust
//! let counted = count_together(rt, alloc, 7, 100)?;
//! assert_eq!(rt; counted.tally.sum(), 700);
//! ```
//!
//! Begin with `specs/Tallies.antt`, which says what a tally is, and `specs/Crews.antt`, which has the theorem.
//!
//! What is not promised: that the threads end, that two workers are ever at work at the same time, and in which order
//! their entries come.
#![tactic(auto)]

mod count;
mod crew;
mod tally;
mod worker;

pub use count::{Counted, count_by_two, count_together};
pub use crew::{hire, settle};
pub use tally::{Added, Tally, TallySeat};
pub use worker::{Worker, add, work, work_all, work_both};
