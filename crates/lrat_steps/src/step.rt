//! Steps of a log.
ghost use Rattle.std.specs.Prelude.{◌≡◌, ◌+◌, ◌≤◌, length};
ghost use Rattle.lrat_steps.specs.Log.{step_of};
ghost use Rattle.lrat_steps.specs.Parts.{step_with, inputs_in, learned_in};

use sat_base::Lit;

/// A step, as it is handed to a log.
#[derive(Clone, Copy)]
pub enum LogStep<'a> {
    /// A clause that was given.
    Input(&'a [Lit]),
    /// A learnt clause, and the ids of the clauses that it follows from, in the order of propagation.
    Learned(&'a [Lit], &'a [u64]),
    /// The clause of negated assumptions that stands for an answer, or a literal of the root level, with such ids.
    Core(&'a [Lit], &'a [u64]),
}

/// What a step of a log is.
#[derive(Clone, Copy, Debug, PartialEq, Eq)]
pub enum StepKind {
    Input,
    Learned,
    Core,
}

/// A step in parts, of which an input has no hints.
#[derive(Clone, Copy)]
pub struct Parts<'a> {
    pub kind: StepKind,
    pub lits: &'a [Lit],
    pub hints: &'a [u64],
}

/// The parts of a step.
pub fn parts_of(step: LogStep<'_>) -> Parts<'_>
    ensures step { step_of step.entry ≡ step_with result.kind result.lits.now result.hints.now }
    ensures no_hints { result.kind ≡ StepKind.Input → length result.hints.now ≡ 0 }
{
    match step {
        LogStep::Input(lits) => Parts {
            kind: StepKind::Input,
            lits,
            hints: &[],
        },
        LogStep::Learned(lits, hints) => Parts {
            kind: StepKind::Learned,
            lits,
            hints,
        },
        LogStep::Core(lits, hints) => Parts {
            kind: StepKind::Core,
            lits,
            hints,
        },
    }
}

/// How many inputs a step of this kind is, and how many learnt clauses.
pub fn counts_of(kind: StepKind) -> (u32, u64)
    ensures inputs { result.0 ≡ inputs_in kind }
    ensures learned { result.1 ≡ learned_in kind }
    ensures one { result.0 + result.1 ≤ 1 }
{
    match kind {
        StepKind::Input => (1, 0),
        StepKind::Learned => (0, 1),
        StepKind::Core => (0, 0),
    }
}
