//! Trials of the core, the board and workers, over oracles and map engines without a solver, for whom memory may be wanting.
//!
//! The word after the program's name is a script; `trial_script` says what one is. A call is about the problem that the
//! case gave last. Most have a text, whose lines are moves or describe the map: `player.rt` lists the calls, and the head of
//! each other file tells those of one kind.
//!
//! ```text
//! four-clauses
//! workers never : never
//! | script 1 2 3 4 : 1 3 4 : 2
//! ```
//!
//! Sets, values and lines that aren't known are those of `trial_sets`. Where an answer isn't one that may come, `wrong` is printed.
//!
//! Start reading at `player.rt`, then at `scripted.rt`. What a text makes moves with is a struct that owns it, made in one function,
//! which takes it apart before it returns: so few proofs have to drop a map or a board. Of what is printed nothing is proved: it
//! is compared.
#![tactic(auto)]

mod boards;
mod cores;
mod journalled;
mod player;
mod scripted;
mod together;
mod workers;

use gm_base::Problem;
use player::Trials;
use std::alloc::Global;
use std::{env, io};
use together::{Together, play_together};
use trial_script::{Step, play};

fn main(rt: HostRuntime) -> io::Result<()> {
    let own = rt.clone()?;
    let play_call = move |alloc: Global, problem: &Problem, step: &Step<'_>, out: &mut String| {
        play_together(&own, alloc, problem, step, out)
    };
    let together = Together::new(Box::new(rt.alloc(), play_call)?);
    let mut trials = Trials::new(together);
    match env::args(&rt)?.nth(1) {
        Some(name) => play(&rt, name.as_str(), &mut trials),
        None => Ok(()),
    }
}
