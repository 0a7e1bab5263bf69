//! An oracle and a map engine without a solver, for trials of what is written for every lawful one.
//!
//! A [`TableOracle`] knows some assignments and some minimal conflicts of its problem, and answers by the first that fits;
//! a [`ScriptedMap`] hands out the seeds that it was given, in their order. Both keep all that the traits `Oracle` and
//! `MapEngine` ask for. Where the table or the script has no right answer they answer want of memory, which a caller has
//! to expect at each call. [`checked`] tells whether the evidence of a record that a trial wrote shows what it says.
//!
//! The module `example` has a problem of four clauses with its records. What runs over the two is tried by `lawful_trials`
//! and by `pool_trials`, so that no crate of the program stands on this one.
//!
//! A [`ShyOracle`] and a [`ShyMap`] are these two with memory wanting from one call on.
//!
//! None answers Dry: for that a search has to stand before a conflict, and they search for nothing.
#![tactic(auto)]

mod block;
mod evidence;
pub mod example;
mod scripted_map;
mod shy;
mod table_oracle;

pub use evidence::{Lacking, checked, is_shaped};
pub use scripted_map::ScriptedMap;
pub use shy::{ShyMap, ShyOracle};
pub use table_oracle::TableOracle;
