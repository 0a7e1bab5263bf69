//! Logs of LRAT steps, and derivations that hold only what their goal needs.
//!
//! A solver tells a [`Log`] each clause that it is given and each clause that it derives, the latter with hints: the
//! ids of the clauses from which it follows by unit propagation (LRAT: Cruz-Filipe and others 2017). The id of a step
//! is its place in the log, from 1. What the log says of a clause is then turned into a derivation of that clause from
//! the clauses that were given:
//!
//! ```text
//! let mut log = Log::new(alloc);
//! log.push(LogStep::Input(&[x]))?;
//! log.push(LogStep::Input(&[x.negated()]))?;
//! let id = log.push(LogStep::Core(&[], &[1, 2]))?;
//! let derivation = log.trim(alloc, id)?;
//! ```
//!
//! Where many solvers search the same clauses, these stand once, as [`Given`], and the log of each begins with them where they
//! stand. No contract of a [`Log`] tells such a clause from one that it keeps itself.
//!
//! ```text
//! let mut builder = GivenBuilder::new(alloc);
//! builder.push(&[x])?;
//! let given = builder.finish(alloc)?;
//! let mut log = Log::beside(alloc, &given)?;
//! log.push(LogStep::Input(&[x]))?;
//! ```
//!
//! A learnt clause that is live may be forgotten where [`may_forget`] says so. [`Log::forget`] puts a mark among the
//! steps; the step itself stays, and what it derived may be named by later hints.
//!
//! Start reading at `specs/Log.antt` and `specs/Honest.antt`, which say what a log is and when it is honest, and go on
//! with `specs/Trimmed.antt`, which says what a derivation of a clause is. `specs/Undecided.antt` is about searches
//! that stopped early, and `specs/Rows.antt` has a worked log. The walk back from a goal is in `cone.rt`.
//!
//! A log believes what it is told: whether it is honest is for its callers to know, and `trim` asks for it.
#![tactic(auto)]

mod cone;
mod crossing;
mod forget;
mod given;
mod log;
mod logs;
mod renumber;
mod shown;
mod step;

pub use forget::may_forget;
pub use given::{Given, GivenBuilder};
pub use log::Log;
pub use logs::Logs;
pub use step::{LogStep, StepKind};
