//! Propagation: what is forced, by which clause, which clause is falsified, and how watches move.
//!
//! ```text
//! bench 4                    no clauses and no values, over four variables
//! bench 6 parks              the same, and watches are parked
//! add -3 4                   a clause comes
//! propagate                  tells the clause that is falsified, if one is
//! decide 1                   decides a literal, propagates, and tells the same
//! back 0                     the levels above 0 are taken back
//! ```
//!
//! What is kept of the trail is told as in its own trials (`show`, `len`, `top`, `value 3`, ..), and what of a literal as in
//! those of stores (`head 1`, `tail 1`, `parked 1`).
use crate::bench::Bench;
use crate::{store, trail};
use std::alloc::{AllocError, Global};
use trial_lits::{lit_at, lits_at, tell_id, vars_at};
use trial_script::{Player, Step, hold, known};

/// Clauses and values, once they were made.
#[derive(Drop)]
pub struct PropagationPlayer {
    pub bench: Option<Bench>,
}

impl PropagationPlayer {
    fn make(&mut self, alloc: Global, step: &Step<'_>) -> Result<bool, AllocError> {
        match vars_at(step, 1) {
            Some(vars) => {
                let parks = step.word(2) == "parks";
                hold(&mut self.bench, Bench::new(alloc, vars, parks))
            }
            None => Ok(false),
        }
    }
}

impl Player for PropagationPlayer {
    fn begin(&mut self, _alloc: Global) -> Result<(), AllocError> {
        self.bench = None;
        Ok(())
    }

    fn call(
        &mut self,
        alloc: Global,
        step: &Step<'_>,
        out: &mut String,
    ) -> Result<bool, AllocError> {
        if step.word(0) == "bench" {
            return self.make(alloc, step);
        }
        match &mut self.bench {
            Some(bench) => on_bench(alloc, bench, step, out),
            None => Ok(false),
        }
    }
}

fn on_bench(
    alloc: Global,
    bench: &mut Bench,
    step: &Step<'_>,
    out: &mut String,
) -> Result<bool, AllocError> {
    match step.word(0) {
        "add" => add(alloc, bench, step),
        "propagate" => tell_propagated(bench, out),
        "decide" => decide(bench, step, out),
        "back" => Ok(back(bench, step)),
        _ => read(bench, step, out),
    }
}

/// Tells what is kept of the trail, or else of the store.
fn read(bench: &Bench, step: &Step<'_>, out: &mut String) -> Result<bool, AllocError> {
    match trail::read(&bench.trail, step, out) {
        Ok(false) => store::read(&bench.store, step, out),
        told => told,
    }
}

fn add(alloc: Global, bench: &mut Bench, step: &Step<'_>) -> Result<bool, AllocError> {
    match lits_at(alloc, step, 1, bench.vars())? {
        Some(lits) => known(bench.add(&lits)),
        None => Ok(false),
    }
}

fn tell_propagated(bench: &mut Bench, out: &mut String) -> Result<bool, AllocError> {
    known(tell_id(out, "falsified", bench.propagate()))
}

fn decide(bench: &mut Bench, step: &Step<'_>, out: &mut String) -> Result<bool, AllocError> {
    match lit_at(step, 1, bench.vars()) {
        Some(lit) if bench.decide(lit) => tell_propagated(bench, out),
        _ => Ok(false),
    }
}

fn back(bench: &mut Bench, step: &Step<'_>) -> bool {
    match step.count(1) {
        Some(level) => {
            bench.back(level);
            true
        }
        None => false,
    }
}
