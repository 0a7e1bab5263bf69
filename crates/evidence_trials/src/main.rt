//! Tries evidence and journals of it by scripts: each word after the program's name is a script, and its name
//! says who plays it.
//!
//! | script | what its calls are made of | player |
//! |---|---|---|
//! | `evidence` | evidence, records of it, audits, and what is carried over | `evidence.rt` |
//! | `journals` | what a journal of records on a disk holds, and appends to one | `journals.rt` |
//!
//! `trial_script` says what a script is, and the head of each player which calls it knows. Start reading at `evidence.rt`.
#![tactic(auto)]

mod evidence;
mod journals;

use evidence::EvidencePlayer;
use journals::JournalPlayer;
use std::rt::Files;
use std::sync::Wait;
use std::{env, io};
use trial_script::{Player, play};

fn main(rt: HostRuntime) -> io::Result<()> {
    for name in env::args(&rt)?.skip(1) {
        play_script(&rt, name.as_str())?;
    }
    Ok(())
}

/// Plays the script of this name.
fn play_script<R: Files + Print + AllocGlobal + Wait>(rt: &R, name: &str) -> io::Result<()> {
    match name.strip_prefix("data/").unwrap_or(name) {
        "evidence" => play_by(rt, name, EvidencePlayer::new(rt.alloc())),
        "journals" => play_by(rt, name, JournalPlayer::new(rt, rt.alloc())),
        _ => println!(rt; "? {name}"),
    }
}

/// Owns the player, so that few proofs have to drop one.
fn play_by<R: Files + Print + AllocGlobal, P: Player + Drop>(
    rt: &R,
    name: &str,
    mut player: P,
) -> io::Result<()> {
    play(rt, name, &mut player)
}
