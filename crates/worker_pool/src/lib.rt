//! Workers that enumerate the minimal conflicts and minimal corrections of a problem, at once, over one map.
//!
//! ```text
//! let outcome = enumerate(rt, alloc, &problem, records, oracles, engine, budget, limit, Goal::All, &OpenGate, journal);
//! match outcome.closing {
//!     Some(closing) => .., // closing.verdict says why it ended; outcome.logs are the oracles', in their order, and then the map's
//!     None => ..,          // there was no memory
//! }
//! ```
//!
//! There is a worker for each oracle, in one list that is made before any thread is. They share a
//! [`Board`](board::Board), and each takes a seed of it, asks its own oracle about it, shrinks or grows it, and posts the
//! record. Only the board's calls wait for one another. Where there are more workers than processors, a thread has several,
//! one after the other. Where no thread can be had, all run so in the caller's. One worker leads, and the
//! others rest while the board is busy (`src/pace.rt`), until one has ended (`src/signs.rt`).
//!
//! Start reading at `src/marco.rt`, which has the loop, and at `specs/Outcomes.antt`, which says what is left.
//!
//! Nothing is promised of who finds which set, of speed, nor that two workers are ever at work at the same time.
#![tactic(auto)]

mod crew;
mod handing;
mod marco;
mod met;
mod pace;
mod pool;
mod signs;
mod worker;

pub use marco::work;
pub use pool::{Outcome, enumerate};
pub use worker::Worker;
