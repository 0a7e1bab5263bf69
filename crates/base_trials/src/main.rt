//! Tries what all else stands on by a script, `bases`: assignments, work lists, derivations, sets of groups and problems.
//!
//! `trial_script` says what a script is, and the head of `bases.rt` which calls this one knows. Start reading there.
#![tactic(auto)]

mod bases;

use bases::BasesPlayer;
use std::{env, io};
use trial_script::play;

fn main(rt: HostRuntime) -> io::Result<()> {
    for name in env::args(&rt)?.skip(1) {
        play(&rt, name.as_str(), &mut BasesPlayer::new(rt.alloc()))?;
    }
    Ok(())
}
