//! Trials of the crates that a solver's search stands on: scripts of calls, and what they have to print.
//!
//! Each script is one of `data/`, and is named by the program's words. The calls that it may make are told at the head of
//! the file of its name, and how a script is written in `trial_script`:
//!
//! ```text
//! == back_to_leaves_the_levels_up_to_the_one_named: level 1
//! trail 4
//! decide 2
//! assign -3 7
//! decide -1
//! back_to 1
//! show
//! = level 1 : 2 -3
//! ```
//!
//! | Script | What is tried | Read first |
//! |---|---|---|
//! | `words` | `lit_words` | `words.rt` |
//! | `trail` | `trail_book` | `trail.rt` |
//! | `store` | `clause_store` | `store.rt` |
//! | `propagation` | `propagate` | `propagation.rt`, `bench.rt` |
//! | `learning` | `learn_step` | `learning.rt`, `reasons.rt` |
//!
//! What a call requires is tested before it is made. Where it doesn't hold, the call is printed behind `? `, as one that is
//! not known. Nothing is proved here but that each call is made where it may be. The log, the checker and the solver itself
//! are tried by `solver_trials`.
#![tactic(auto)]

mod bench;
mod learning;
mod propagation;
mod reasons;
mod store;
mod trail;
mod words;

use learning::LearningPlayer;
use propagation::PropagationPlayer;
use std::rt::Files;
use std::{env, io};
use store::StorePlayer;
use trail::TrailPlayer;
use trial_script::{Player, play};
use words::WordsPlayer;

fn main(rt: HostRuntime) -> io::Result<()> {
    for name in env::args(&rt)?.skip(1) {
        play_named(&rt, name.as_str())?;
    }
    Ok(())
}

// Plays a script by the player of its name. It may be named with its folder.
fn play_named<R: Files + Print + AllocGlobal>(rt: &R, name: &str) -> io::Result<()> {
    match name.strip_prefix("data/").unwrap_or(name) {
        "words" => play_by(rt, name, WordsPlayer::new()),
        "trail" => play_by(rt, name, TrailPlayer { trail: None }),
        "store" => play_by(rt, name, StorePlayer { store: None }),
        "propagation" => play_by(rt, name, PropagationPlayer { bench: None }),
        _ => play_by(rt, name, LearningPlayer { scene: None }),
    }
}

// Owns the player, so that few proofs have to drop one.
fn play_by<R: Files + Print + AllocGlobal, P: Player + Drop>(
    rt: &R,
    name: &str,
    mut player: P,
) -> io::Result<()> {
    play(rt, name, &mut player)
}
