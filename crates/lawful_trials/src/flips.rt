//! Assignments that are changed by flips of variables. `flips` makes the flips and the rotation of model_flips, which all its
//! moves share:
//!
//! | move | what it does, and what is printed |
//! |---|---|
//! | `try 3 : 010` | begins with these values and tries to make a group true: the groups that are false then; whether the assignment is shown without these, and with all |
//! | `turn 1 : 000 : 1` | flips a variable of these values, which leave out the groups behind the last `:` and no others: the groups that are left out then, or `none` |
//! | `repair 1 2 3 : 000 : 1` | flips variables of these values until the groups in front are true: the same |
ghost use Rattle.std.specs.Prelude.{◌<◌, ◌≤◌};

use gm_base::{GroupSet, Problem};
use lawful_fakes::Lacking;
use model_flips::{Flips, Rotation, Turned};
use std::alloc::{AllocError, Global};
use trial_script::Step;
use trial_sets::{
    Mover, Played, add_numbers, make_moves, number_at, numbers_in, played, say, say_numbers,
    set_in, values_in,
};

// What a repair may look at.
const MOST_LOOKS: u64 = 1_000_000;

/// Flips variables of assignments of this problem.
#[derive(Drop)]
struct Flipper<'a> {
    flips: Flips,
    rotation: Rotation,
    problem: &'a Problem,
}

pub fn play_flips(alloc: Global, problem: &Problem, step: &Step<'_>, out: &mut String) -> Played {
    let flips = Flips::new(alloc, problem)?;
    let rotation = Rotation::new(alloc, problem)?;
    let mut flipper = Flipper {
        flips,
        rotation,
        problem,
    };
    played(make_moves(alloc, &mut flipper, step, out))
}

impl Mover for Flipper<'_> {
    fn make_move(&mut self, alloc: Global, step: &Step<'_>, out: &mut String) -> Played {
        match step.word(0) {
            "try" => self.try_group(alloc, step, out),
            "turn" => tell_turned(&self.turn(alloc, step)?, out),
            "repair" => tell_turned(&self.repair(alloc, step)?, out),
            _ => Err(Lacking::Evidence),
        }
    }
}

impl Flipper<'_> {
    fn try_group(&mut self, alloc: Global, step: &Step<'_>, out: &mut String) -> Played {
        let group = number_at(alloc, step, 0, 0)?;
        let values = values_in(alloc, step, 1, self.problem.vars())?;
        self.flips.begin(&values);
        self.flips.try_group(group);
        let left_out = self.flips.left_out(alloc)?;
        played(self.tell_tried(alloc, &left_out, out))
    }

    fn tell_tried(
        &mut self,
        alloc: Global,
        left_out: &GroupSet,
        out: &mut String,
    ) -> Result<(), AllocError> {
        out.push_str("left out")?;
        add_numbers(out, left_out.as_slice())?;
        let without = self.is_shown(alloc, left_out)?;
        let with = self.is_shown(alloc, &GroupSet::new(alloc))?;
        writeln!(out, ", shown {without}, with all {with}")
    }

    fn is_shown(&mut self, alloc: Global, left_out: &GroupSet) -> Result<bool, AllocError> {
        Ok(self.flips.shown(alloc, left_out)?.is_some())
    }

    fn turn(&self, alloc: Global, step: &Step<'_>) -> Result<Option<Turned>, Lacking> {
        let var = number_at(alloc, step, 0, 0)?;
        if var == 0 || var > self.problem.vars() {
            return Err(Lacking::Evidence);
        }
        self.turn_var(alloc, step, var)
    }

    fn turn_var(&self, alloc: Global, step: &Step<'_>, var: u32) -> Result<Option<Turned>, Lacking>
        requires from_one { 0 < var }
        requires within { var ≤ self.now.problem.now.vars }
    {
        let problem = self.problem;
        let values = values_in(alloc, step, 1, problem.vars())?;
        let left_out = set_in(alloc, step, 2, problem.groups())?;
        let rotation = &self.rotation;
        Ok(rotation.turned(alloc, problem, &left_out, &values, var)?)
    }

    fn repair(&self, alloc: Global, step: &Step<'_>) -> Result<Option<Turned>, Lacking> {
        let problem = self.problem;
        let marks = marks_in(alloc, problem, step)?;
        let values = values_in(alloc, step, 1, problem.vars())?;
        let left_out = set_in(alloc, step, 2, problem.groups())?;
        let mut looks = 0;
        Ok(
            self.rotation.repaired(
                alloc,
                problem,
                marks.as_slice(),
                &left_out,
                &values,
                &mut looks,
                MOST_LOOKS,
            )?,
        )
    }
}

fn tell_turned(turned: &Option<Turned>, out: &mut String) -> Played {
    played(match turned {
        Some(turned) => say_numbers(out, "left out", turned.out.as_slice()),
        None => say(out, "none"),
    })
}

/// A mark at each of the groups in the first part.
fn marks_in(alloc: Global, problem: &Problem, step: &Step<'_>) -> Result<Vec<bool>, Lacking> {
    let groups = numbers_in(alloc, step, 0)?;
    Ok(marks_of(alloc, problem, groups.as_slice())?)
}

/// A mark at each of these groups.
fn marks_of(alloc: Global, problem: &Problem, groups: &[u32]) -> Result<Vec<bool>, AllocError> {
    let mut marks = vec![in alloc; false; problem.groups() as usize + 1]?;
    for group in groups {
        if let Some(mark) = marks.get_mut(*group as usize) {
            *mark = true;
        }
    }
    Ok(marks)
}
