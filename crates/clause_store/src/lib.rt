//! Clauses under ids from 1, as a solver keeps them.
//!
//! A [`Store`] holds the clauses that a solver was given and those that it derived. It only grows, and no literal of a
//! clause ever moves, so an id names the same literals for good:
//!
//! ```text
//! let mut store = Store::new(alloc, vars)?;
//! let id = store.add(&[Lit::new(1), Lit::new(-2)], true)?;
//! for lit in store.lits(id) { .. }
//! ```
//!
//! Start reading at `specs/Clauses.antt`. Which clauses follow from which is not told here: that is the log's.
#![tactic(auto)]

mod links;
mod positions;
mod shape;
mod store;
mod thirds;
mod words;

pub use store::Store;
