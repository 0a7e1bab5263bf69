//! An oracle over the learning solver: which sets of groups can be satisfied with the background, and why others can't.
//!
//! ```text
//! let mut oracle = GroupOracle::new(alloc, &problem)?;
//! match oracle.ask(alloc, &set, 0, &mut purse)? {
//!     Asked::Sat(assign) => ..,                   // satisfies the background and the set
//!     Asked::Unsat(core) => oracle.proof(alloc)?, // a derivation that refutes the core, a part of the set
//!     Asked::Dry => ..,                           // the purse is empty
//! }
//! ```
//!
//! Each group has a selector, a variable of its own, and a question assumes the selectors of its set. So one solver serves
//! all questions, and what it learnt for one it knows for the next. The contracts are those of the trait
//! `evidence_rec::Oracle`.
//!
//! Where several ask about one problem, `oracle.twin(alloc)?` is another oracle for it. Both share the clauses that they were
//! given, and nothing of what they learn.
//!
//! Start with `oracle.rt`, whose head says why the answers are right, and `specs/Inside.antt`, which says what an oracle
//! keeps. `selectors.rt` makes clauses with selectors, `cores.rt` reads the groups off a clause, and `late_solver.rt` has the
//! solver, which is made at the first question.
//!
//! Not said here: how many units a question costs, that a core is minimal, and that memory suffices.
#![tactic(auto)]

mod cores;
mod late_solver;
mod oracle;
mod selectors;

pub use oracle::GroupOracle;
