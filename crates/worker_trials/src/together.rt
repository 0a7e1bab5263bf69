//! Calls that start threads or wait for turns.
//!
//! That is done only where the runtime is at hand, in `main`. A player is handed none, so it holds what `main` makes of it: a
//! closure that plays these calls.
use crate::boards::play_board;
use crate::journalled::play_journalled;
use crate::workers::{play_either, play_workers};
use gm_base::Problem;
use lawful_fakes::Lacking;
use std::alloc::Global;
use std::sync::Wait;
use std::thread::Threads;
use trial_script::Step;
use trial_sets::Played;

/// Plays the calls that start threads or wait.
#[derive(Drop)]
pub struct Together {
    play: Box<dyn Fn(Global, &Problem, &Step<'_>, &mut String) -> Played + Drop>,
    ghost ready: { IsAlwaysCallable play },
}

impl Together {
    pub fn new(
        play: Box<dyn Fn(Global, &Problem, &Step<'_>, &mut String) -> Played + Drop>,
    ) -> Together
        requires { IsAlwaysCallable play }
    {
        Together { play }
    }

    pub fn play(
        &self,
        alloc: Global,
        problem: &Problem,
        step: &Step<'_>,
        out: &mut String,
    ) -> Played {
        (self.play)(alloc, problem, step, out)
    }
}

/// Plays such a call with a runtime.
pub fn play_together<R: Threads + Wait + Sync>(
    rt: &R,
    alloc: Global,
    problem: &Problem,
    step: &Step<'_>,
    out: &mut String,
) -> Played {
    match step.word(0) {
        "board" => play_board(rt, alloc, problem, step, out),
        "workers" => play_workers(rt, alloc, problem, step, out),
        "journalled" => play_journalled(rt, alloc, problem, step, out),
        "either" => play_either(rt, alloc, problem, step, out),
        _ => Err(Lacking::Evidence),
    }
}
