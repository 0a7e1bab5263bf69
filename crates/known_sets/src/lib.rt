//! An oracle around an oracle, which remembers what it was told.
//!
//! ```text
//! let mut oracle = KnownSets::new(alloc, &problem, GroupOracle::new(alloc, &problem)?)?;
//! match oracle.ask(alloc, &set, 0, &mut purse)? {
//!     Asked::Sat(assign) => ..,                   // found now, or known of a larger set
//!     Asked::Unsat(core) => oracle.proof(alloc)?, // one more reference to the refutation, found now or before
//!     Asked::Dry => ..,
//! }
//! ```
//!
//! Whoever shrinks and grows sets asks most questions next to one that was answered just before: a group less than an
//! unsatisfiable set, or a group more than a satisfiable one. Most of these are answered by what is known already, and
//! then the oracle within is asked nothing, and learns and spends nothing. The contracts are those of the trait
//! `evidence_rec::Oracle`, whatever lawful oracle is within.
//!
//! Start with `oracle.rt`, and then `memory.rt`, whose head says which questions are looked up. Its parts are
//! `refuted.rt` and `satisfied.rt`, which say why an answer from memory is right, and `model_maker.rt`, which makes models
//! of those that are remembered. `critical.rt` has what is shown of the set that is shrunk alone. `index.rt` finds a set by
//! one of its groups.
//!
//! Not said here: that a set which is known is found, and that there is memory to remember one. Both only cost a question.
#![tactic(auto)]

mod arena;
mod critical;
mod entry;
mod index;
mod last_set;
mod marks;
mod memory;
mod model_maker;
mod neighbours;
mod numbers;
mod oracle;
mod patience;
mod refuted;
mod satisfied;
mod showing;
mod tested;
mod turning;

pub use oracle::{KnownSets, MOST_BYTES};
