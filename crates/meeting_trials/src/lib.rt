//! Tests of `run` over files and sinks in memory: one problem, and two workers that have to be at work at the same time.
//!
//! What else is tried of `run` stands in the script of `run_trials`. These stay tests, since the second one waits for two threads.
//! So there is nothing here but the tests.
#![tactic(auto)]

#[cfg(test)]
mod tests;
