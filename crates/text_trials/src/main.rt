//! Tries ports, words and texts by scripts: each word after the program's name is a script, and its name says who plays it.
//!
//! | script | what its calls are made of | player |
//! |---|---|---|
//! | `ports` | files and sinks in memory | `ports.rt` |
//! | `journal` | journals on a disk in memory | `journal.rt` |
//! | `words` | command lines | `words.rt` |
//! | `texts` | tokens, problems and reports | `texts.rt` |
//!
//! `trial_script` says what a script is, and the head of each player which calls it knows. Start reading at `words.rt`.
#![tactic(auto)]

mod journal;
mod numbers;
mod ports;
mod shown;
mod texts;
mod words;

use journal::JournalPlayer;
use ports::PortsPlayer;
use std::{env, io};
use texts::TextsPlayer;
use trial_script::play;
use words::WordsPlayer;

fn main(rt: HostRuntime) -> io::Result<()> {
    for name in env::args(&rt)?.skip(1) {
        play_script(&rt, name.as_str())?;
    }
    Ok(())
}

/// Plays the script of this name.
fn play_script(rt: &HostRuntime, name: &str) -> io::Result<()> {
    match name.strip_prefix("data/").unwrap_or(name) {
        "ports" => play(rt, name, &mut PortsPlayer::new(rt.alloc())),
        "journal" => play(rt, name, &mut JournalPlayer::new(rt.alloc())),
        "words" => play(rt, name, &mut WordsPlayer),
        "texts" => play(rt, name, &mut TextsPlayer::new(rt.alloc())),
        _ => println!(rt; "? {name}"),
    }
}
