//! Trials of a solver, of its log and of the checker of its steps: scripts of calls, and what they have to print.
//!
//! Each script is one of `data/`, and is named by the program's words. The calls that it may make are told at the head of
//! the file of its name, and how a script is written in `trial_script`:
//!
//! ```text
//! == the_turn_begins_the_order_of_decisions: turn 1
//! solver 2
//! add -1 -2 0
//! solve turn 1
//! = sat
//! model
//! = model -1 2
//! ```
//!
//! | Script | What is tried | Read first |
//! |---|---|---|
//! | `log` | `lrat_steps` | `log.rt` |
//! | `checker` | `lrat_check` | `checker.rt` |
//! | `solver` | `cdcl_core` | `solver.rt`, `agreeing.rt` |
//!
//! What a call requires is tested before it is made. Where it doesn't hold, the call is printed behind `? `, as one that is
//! not known. Nothing is proved here but that each call is made where it may be. The crates that the search stands on are
//! tried by `trail_trials`.
#![tactic(auto)]

mod agreeing;
mod checker;
mod log;
mod solver;

use checker::CheckerPlayer;
use log::LogPlayer;
use solver::SolverPlayer;
use std::rt::Files;
use std::{env, io};
use trial_script::play;

fn main(rt: HostRuntime) -> io::Result<()> {
    for name in env::args(&rt)?.skip(1) {
        play_named(&rt, name.as_str())?;
    }
    Ok(())
}

// Plays a script by the player of its name. It may be named with its folder.
fn play_named<R: Files + Print + AllocGlobal>(rt: &R, name: &str) -> io::Result<()> {
    match name.strip_prefix("data/").unwrap_or(name) {
        "log" => play(rt, name, &mut LogPlayer::new(rt.alloc())),
        "checker" => play(rt, name, &mut CheckerPlayer { checking: None }),
        _ => play(
            rt,
            name,
            &mut SolverPlayer {
                solver: None,
                reply: None,
            },
        ),
    }
}
