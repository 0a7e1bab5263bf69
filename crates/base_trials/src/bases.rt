//! The player of what all else stands on: assignments, work lists and derivations, sets of groups and problems.
//!
//! ```text
//! variables 130      an assignment begins, of so many variables, which are all false; tells how many it has
//! true 1 65          these get their values, or with `false` the other one
//! finish             it is whole; tells how many variables it has
//! prefix 129         a copy has the first variables alone; tells how many it has
//! flipped 3          a copy has the other value of a variable
//! word 1             64 values as the bits of a word: those of variables 65 to 128
//! told 65            whether a literal and its negation are true, and the same of the copy
//! insert 5 2         numbers of a work list
//! greatest           the greatest number, and with `take` it is taken out
//! proof 6            a derivation for the clause of this id begins
//! step 4 -2 0 1 2    its next step: an id, literals, 0 and hints
//! aim 7              it is for the clause of this id
//! steps              a copy of it
//! groups 3 9         the set
//! without 9          another set is the set without a group, or with `complement 11` the other groups, or with `copy` a copy
//! compact            another set is what is written down of the set where that is kept by what it has or lacks
//! other 1 2          another set
//! contains 9         whether the set has the group
//! subset             whether the other set is within the set, and the set within the other
//! compare            how the set stands to the other
//! problem            the problem of the GCNF text below, and a copy
//! holds 2 3          whether the assignment satisfies these groups of the problem, and of the copy
//! clauses            the clauses of the copy, each with how many there are of its group
//! ```
mod groups;
mod values;

use gm_base::Problem;
use groups::{SetPair, call_sets, problem_pair, show_clauses, show_holds};
use std::alloc::{AllocError, Global};
use trial_script::{Player, Step};
use values::{Pieces, call_pieces};

/// Has one of each kind.
#[derive(Drop)]
pub struct BasesPlayer {
    pieces: Pieces,
    sets: SetPair,
    problems: Option<(Problem, Problem)>,
}

impl BasesPlayer {
    pub fn new(alloc: Global) -> BasesPlayer {
        BasesPlayer {
            pieces: Pieces::new(alloc),
            sets: SetPair::new(alloc),
            problems: None,
        }
    }
}

impl Player for BasesPlayer {
    fn begin(&mut self, alloc: Global) -> Result<(), AllocError> {
        *self = BasesPlayer::new(alloc);
        Ok(())
    }

    fn call(
        &mut self,
        alloc: Global,
        step: &Step<'_>,
        out: &mut String,
    ) -> Result<bool, AllocError> {
        match step.word(0) {
            "problem" => self.read_problem(alloc, step),
            "holds" => match (&self.problems, &self.pieces.assign) {
                (Some((problem, copy)), Some(assign)) => {
                    show_holds(problem, copy, assign, alloc, step, out)
                }
                _ => Ok(false),
            },
            "clauses" => match &self.problems {
                Some((_, copy)) => show_clauses(copy, out),
                None => Ok(false),
            },
            _ => match call_pieces(&mut self.pieces, alloc, step, out) {
                Ok(false) => call_sets(&mut self.sets, alloc, step, out),
                told => told,
            },
        }
    }
}

impl BasesPlayer {
    fn read_problem(&mut self, alloc: Global, step: &Step<'_>) -> Result<bool, AllocError> {
        self.problems = problem_pair(alloc, step)?;
        Ok(self.problems.is_some())
    }
}
