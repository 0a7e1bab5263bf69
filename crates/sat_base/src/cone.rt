//! Steps of a log under numbers without gaps.
//!
//! What is derived from a long log needs some of its steps. They are kept as they stand in the log, with no copy of their
//! literals and hints, and numbered as they are read.
ghost use Rattle.std.specs.Prelude.{◌≡◌, ◌≤◌, ◌<◌, Some, length, map, slice_get};
ghost use Rattle.sat_base.specs.Derivation.{max_id, HasIds};
ghost use Rattle.sat_base.specs.Hints.{ids_of};
ghost use Rattle.sat_base.specs.Numbering.{renumbered};

use crate::hints::Hints;
use crate::numbering::Numbering;
use crate::step_arena::SharedStep;
use crate::steps::Step;
use std::marker::Model;

/// Steps of a log, and the numbers that they have here.
#[derive(Drop)]
pub(crate) struct Cone {
    by: Numbering,
    steps: Vec<SharedStep>,
}

impl Model for Cone {
    ghost use Rattle.std.specs.Prelude.{List};
    ghost use Rattle.sat_base.specs.Derivation.{Step};

    ghost Value = { List Step };

    ghost use Rattle.std.specs.Prelude.{map};
    ghost use Rattle.sat_base.specs.Numbering.{renumbered};

    ghost view = { λ cone. map (renumbered cone.by) cone.steps.items };
}

impl Cone {
    pub(crate) fn new(by: Numbering, steps: Vec<SharedStep>) -> Cone
        ensures { result ≡ map (renumbered by) steps.items }
    {
        Cone { by, steps }
    }

    pub(crate) fn len(&self) -> usize
        ensures { result ≡ length self.now }
    {
        self.steps.len()
    }

    /// The step at a place, from 0.
    pub(crate) fn step(&self, at: usize) -> Step<'_>
        requires { at < length self.now }
        ensures { slice_get self.now at ≡ Some (record { id = result.id; lits = result.lits.now; hints = ids_of result.hints }) }
    {
        let kept = self.steps[at].kept();
        Step {
            id: self.by.number(kept.id),
            lits: kept.lits,
            hints: Hints::Numbered(kept.ids, &self.by),
        }
    }

    /// That all numbers are small enough, beside a goal that is. The fact is what its callers want.
    pub(crate) fn ids_fit(&self, goal: u64)
        requires { goal ≤ max_id }
        ensures { HasIds (record { steps = self.now; goal = goal }) }
    {
        self.by.is_small();
    }
}
