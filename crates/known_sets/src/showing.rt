//! From one group that is known to be critical to others.
//!
//! Each variable whose flip may make the group true is tried; where the flip leaves out another group of the set alone, that
//! one is critical too, and is gone on from in its turn.
ghost use Rattle.std.specs.Prelude.{◌≡◌, length};

use crate::critical::{Critical, CriticalGroups};
use crate::model_maker::LOOKS_A_QUESTION;
use gm_base::{Assign, Problem};
use model_flips::{Exchanged, Rotation};
use std::alloc::{AllocError, Global};

/// Goes on from the groups that are known from this number on, with those that come of it, until so much was looked at for
/// nothing: a group that is shown critical saves a question.
pub fn show_all(
    alloc: Global,
    rotation: &Rotation,
    problem: &Problem,
    critical: &mut CriticalGroups,
    first: usize,
    looks: &mut u64,
    most: u64,
) -> Result<(), AllocError> {
    // Each group is shown once.
    for turn in 0..critical.set().len() {
        let number = first.saturating_add(turn);
        if number >= critical.len() || *looks > most {
            return Ok(());
        }
        show_from(alloc, rotation, problem, critical, number, looks)?;
    }
    Ok(())
}

// Goes on from the group of this number.
fn show_from(
    alloc: Global,
    rotation: &Rotation,
    problem: &Problem,
    critical: &mut CriticalGroups,
    number: usize,
    looks: &mut u64,
) -> Result<(), AllocError> {
    let Some(Critical { group, witness }) = critical.get(number) else {
        return Ok(());
    };
    let group = *group;
    let assign = witness.copy()?;
    if assign.len() != problem.vars() as usize {
        return Ok(());
    }
    for var in rotation.candidates(alloc, problem, &assign, group)? {
        show_by(
            alloc, rotation, problem, critical, group, &assign, var, looks,
        )?;
    }
    Ok(())
}

// Flips one variable, and keeps what comes of it where that shows another group critical that was not known to be.
fn show_by(
    alloc: Global,
    rotation: &Rotation,
    problem: &Problem,
    critical: &mut CriticalGroups,
    group: u32,
    assign: &Assign,
    var: u32,
    looks: &mut u64,
) -> Result<(), AllocError>
    requires { length assign.now ≡ problem.now.vars }
{
    if var == 0 || var > problem.vars() {
        return Ok(());
    }
    let before = *looks;
    *looks = looks.saturating_add(rotation.cost(var));
    let found = rotation.exchanged(alloc, problem, critical.set(), group, assign, var)?;
    let Some(
        Exchanged {
            group: other,
            assign: witness,
        },
    ) = found
    else {
        return Ok(());
    };
    if critical.has(other) {
        return Ok(());
    }
    *looks = looks.saturating_sub(LOOKS_A_QUESTION).max(before);
    critical.insert(other, witness)
}
