//! Tests of what threads do together.
//!
//! - Two workers are at work at the same time, over oracles without a solver (`tests.rt`): a `MeetingOracle` looks in its
//!   first question for another one. All else of workers over such oracles is tried by `lawful_trials`, whose program is
//!   proved once; this stays a test, since it waits for two threads.
//! - The seats of a tally of `lock_tally` are told each sum once, in threads and one after the other (`tally.rt`).
//!
//! So there is nothing here but the tests and what they need: a crate with tests is proved twice, and this one is small.
#![tactic(auto)]

#[cfg(test)]
mod meeting;
#[cfg(test)]
mod tally;
#[cfg(test)]
mod tests;
