//! Runs of the program by scripts: what a script says of the world of a run, and what it asks of what the run left.
//!
//! [`Trials`] is the player of such scripts (`trial_script` says what one is). It knows no program: whoever plays hands it a
//! [`Machine`], which runs words over files in memory.
//!
//! ```text
//! let mut handed = Handed::new(alloc, words, setting)?;   // the words, the two sinks, and the gate
//! let before = handed.faults(files);
//! let answer = ..;                                        // the run, over these and the files
//! handed.left(alloc, answer, files, before)
//! ```
//!
//! Start reading at `trials.rt`. The calls of a script stand at the head of the program `run_trials`, which has the one call of
//! `run`. Nothing is proved of what is printed. It is apart, since it stands on `gm_ports` alone: so it is proved beside the crates
//! of the program, and not behind them.
#![tactic(auto)]

mod ask;
mod crash;
mod handed;
mod left;
mod lines;
mod machine;
mod outside;
mod plain;
mod setting;
mod shelf;
mod small;
mod sweep;
mod trials;

pub use handed::Handed;
pub use left::{Answer, Faults, Left};
pub use machine::{Machine, Run};
pub use outside::{Outside, Stored};
pub use setting::Setting;
pub use trials::Trials;
