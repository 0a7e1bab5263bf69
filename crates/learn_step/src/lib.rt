//! Conflict analysis.
//!
//! [`learn`] takes a falsified clause and gives what a solver learns from it, with the hints by which a checker follows
//! it and the level to go back to; [`core_of`] gives the decisions that a falsified clause, or a failed assumption,
//! comes from:
//!
//! ```text
//! let learnt = learn(alloc, &store, &trail, id, true)?;
//! trail.back_to(learnt.back_level);
//! ```
//!
//! Start reading at `specs/Reasons.antt`, which says what a trail has to be, and at `specs/Learnt.antt`, which says what
//! comes out; then at `analysis`, whose head has the idea, and at `redundancy`, which tells how a learnt clause gets shorter.
//! No clause says that it is the shortest, nor how many steps it takes.
#![tactic(auto)]

mod analysis;
mod cores;
mod first_uip;
mod learnt;
mod origin;
mod pending;
mod redundancy;

pub use cores::core_of;
pub use first_uip::learn;
pub use learnt::Learnt;
pub use origin::Origin;
