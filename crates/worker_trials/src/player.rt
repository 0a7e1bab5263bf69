//! The calls of a script:
//!
//! | call | what it does |
//! |---|---|
//! | `four-clauses`, `problem` | the problem of the case: see `trial_sets` |
//! | `core`, `board` | plays the calls of workers: see `cores.rt` and `boards.rt` |
//! | `workers`, `either` | has workers enumerate: see `workers.rt` |
//! | `journalled` | has workers enumerate that keep a journal: see `journalled.rt` |
use crate::cores::play_core;
use crate::together::Together;
use gm_base::Problem;
use lawful_fakes::Lacking;
use std::alloc::{AllocError, Global};
use trial_script::{Player, Step};
use trial_sets::{Played, answered, hold_problem};

/// Plays scripts. It holds the problem of the case.
#[derive(Drop)]
pub struct Trials {
    together: Together,
    problem: Option<Problem>,
}

impl Trials {
    pub fn new(together: Together) -> Trials {
        Trials {
            together,
            problem: None,
        }
    }
}

impl Player for Trials {
    fn begin(&mut self, _alloc: Global) -> Result<(), AllocError> {
        self.problem = None;
        Ok(())
    }

    fn call(
        &mut self,
        alloc: Global,
        step: &Step<'_>,
        out: &mut String,
    ) -> Result<bool, AllocError> {
        answered(match step.word(0) {
            "four-clauses" | "problem" => hold_problem(alloc, step, &mut self.problem),
            _ => match &self.problem {
                Some(problem) => play_over(&self.together, alloc, problem, step, out),
                None => Err(Lacking::Evidence),
            },
        })
    }
}

/// Plays a call that is about the problem.
fn play_over(
    together: &Together,
    alloc: Global,
    problem: &Problem,
    step: &Step<'_>,
    out: &mut String,
) -> Played {
    match step.word(0) {
        "core" => play_core(alloc, problem, step, out),
        _ => together.play(alloc, problem, step, out),
    }
}
