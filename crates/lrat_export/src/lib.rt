//! Export of a conflict: its clauses as a CNF by themselves, and the refutation of them.
//!
//! [`cnf_of`] writes the clauses of the background and of a conflict's groups in DIMACS, and [`lrat_of`] the refutation of
//! them in LRAT (Cruz-Filipe, Heule, Hunt, Kaufmann and Schneider-Kamp 2017):
//!
//! ```text
//! let clauses = cnf_of(alloc, &problem, record.set())?;
//! let refutation = lrat_of(alloc, &problem, &record)?;
//! ```
//!
//! Start reading at `specs/Export.antt`, which says what becomes of the proof of the conflict's record where the selectors of
//! its groups are true and all others false: what is true goes, and what is left is a derivation of the empty clause from
//! these clauses alone ([`laws`]).
#![tactic(auto)]

mod cnf;
mod hints;
pub mod laws;
mod looking;
mod lrat;
mod numbering;
mod table;

pub use cnf::cnf_of;
pub use lrat::lrat_of;
