//! Moves: the lines of a call's text, made one after the other.
use crate::telling::say_unknown;
use crate::words::lines_of;
use lawful_fakes::Lacking;
use std::alloc::{AllocError, Global};
use trial_script::Step;

/// How a call or a move ends: it lacks evidence where it isn't known, or its numbers don't fit.
pub type Played = Result<(), Lacking>;

/// How a call or a move ends whose answer was added.
pub fn played(added: Result<(), AllocError>) -> Played {
    match added {
        Ok(()) => Ok(()),
        Err(AllocError) => Err(Lacking::Memory),
    }
}

/// The same for a player: whether the call is known.
pub fn answered(played: Played) -> Result<bool, AllocError> {
    match played {
        Ok(()) => Ok(true),
        Err(Lacking::Evidence) => Ok(false),
        Err(Lacking::Memory) => Err(AllocError),
    }
}

/// What moves are made with.
pub trait Mover {
    /// Makes a move, and adds what it answers to `out`.
    fn make_move(&mut self, alloc: Global, step: &Step<'_>, out: &mut String) -> Played;
}

/// Makes the moves of a call.
pub fn make_moves<M: Mover>(
    alloc: Global,
    mover: &mut M,
    step: &Step<'_>,
    out: &mut String,
) -> Result<(), AllocError> {
    for line in lines_of(step).split('\n') {
        make_line(alloc, mover, line, out)?;
    }
    Ok(())
}

/// Makes the move of a line, if it is one.
fn make_line<M: Mover>(
    alloc: Global,
    mover: &mut M,
    line: &str,
    out: &mut String,
) -> Result<(), AllocError> {
    let step = Step::new(alloc, line)?;
    if is_no_move(step.word(0)) {
        Ok(())
    } else {
        make_one(alloc, mover, &step, out)
    }
}

fn make_one<M: Mover>(
    alloc: Global,
    mover: &mut M,
    step: &Step<'_>,
    out: &mut String,
) -> Result<(), AllocError> {
    match mover.make_move(alloc, step, out) {
        Ok(()) => Ok(()),
        Err(Lacking::Evidence) => say_unknown(out, step),
        Err(Lacking::Memory) => Err(AllocError),
    }
}

/// Whether a line is none: it describes the map, or asks of the log that is left in the end.
fn is_no_move(word: &str) -> bool {
    matches!(
        word,
        "" | "script" | "ending" | "repeating" | "inputs" | "learnt" | "steps"
    )
}
