//! A map engine over the learning solver: which sets of groups are not explored yet, and why none is left.
//!
//! ```text
//! let mut map = PowerMap::new(alloc, groups)?;
//! match map.seed(alloc, 0, &mut purse)? {
//!     Seed::Set(set) => ..,  // no block explores it, nor any set that properly holds it is left: shrink or grow it
//!     Seed::Empty => ..,     // each set is explored, and map.empty_proof(alloc)? derives the empty clause
//!     Seed::Dry => ..,       // the purse is empty
//! }
//! map.block(alloc, &conflict, Side::Up)?;
//! ```
//!
//! The map of all sets of groups is a formula: group g is variable g, each block is a clause, and the models are the sets
//! that are not explored. The contracts are those of the trait `evidence_rec::MapEngine`.
//!
//! Start with `map.rt`, whose head says why the answers are right, and `specs/Inside.antt`, which says what a map keeps.
//! `sets.rt` reads the set off an assignment, and `unsettled.rt` has the sets that come first in a map for roles.
//!
//! Not said here: which of the greatest sets a seed is, how many units it costs, and that memory suffices.
#![tactic(auto)]

mod map;
mod sets;
mod unsettled;

pub use map::PowerMap;
