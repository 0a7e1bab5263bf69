//! The log.
//!
//! A log is the list of a solver's steps in the order in which it took them: clauses that it was given, and clauses
//! that it derived, each with the hints by which it follows. It lives as long as the run and is the largest thing in
//! memory, so its steps stand in blocks that derivations share, and of each step a small record says its kind and counts the
//! inputs up to it: so the number of an input among the inputs, which a derivation goes by, is read off in one step, wherever
//! the input stands in the log.
//!
//! Many solvers may be given the same clauses. A log shows such a clause where it stands for all of them ([`Given`]), and has no
//! record of it: the clauses that it shows are its first steps, and its own steps have the ids behind them.
//!
//! Among the steps stand marks of the clauses that were forgotten. A mark takes no id, so the marks lie in a list of
//! their own, each with the number of the steps before it, and the id of a step is its place among the steps.
ghost use Rattle.std.specs.Prelude.{◌≡◌, ◌<◌, ◌≤◌, ◌+◌, ◌^◌, ◌++◌, ◌∷◌, [], length, map, All, IfOk, OnOk, OnErr, IsTrue, IsFalse, Some, List, ℤ};
ghost use Rattle.sat_base.specs.Derivation.{max_id, clause_of};
ghost use Rattle.sat_base.specs.Hints.{ids_of};
ghost use Rattle.sat_base.specs.Database.{known_of};
ghost use Rattle.lrat_steps.specs.Log.{Input, Forgot, step_of, steps_of, step_at, lits_of, hints_of, kind_of, learned_count, inputs_of, db_of};
ghost use Rattle.lrat_steps.specs.Forgetting.{IsLiveLearned, live_count};
ghost use Rattle.lrat_steps.specs.Cone.{inputs_up_to, kept_at, IsBackward, IsDerivedId};
ghost use Rattle.lrat_steps.specs.Honest.{IsHonest};
ghost use Rattle.lrat_steps.specs.Trimmed.{IsTrimmed};

use crate::cone::cone_of;
use crate::given::Given;
use crate::renumber::derivation_of;
use crate::shown::Shown;
use crate::step::{LogStep, StepKind, counts_of, parts_of};
use sat_base::{Derivation, Hints, Lit, SharedStep, StepArena, are_small, end_of};
use std::alloc::{AllocError, Global};
use std::marker::Model;

// What a step is, and how many inputs there are up to it.
#[derive(Clone, Copy)]
struct StepRecord {
    kind: StepKind,
    inputs: u32,
}

// How many steps stand before a mark, and the id of the clause that was forgotten there.
#[derive(Clone, Copy)]
struct Mark {
    steps: u32,
    id: u32,
}

/// The steps of a solver, in order, and marks among them. The id of a step is its place among the steps, from 1.
#[derive(Drop)]
pub struct Log {
    shown: Shown,
    records: Vec<StepRecord>,
    steps: StepArena,
    marks: Vec<Mark>,
    inputs: u32,
    learned: u64,
    live: u64,
}

impl Model for Log {
    ghost use Rattle.std.specs.Prelude.{List};
    ghost use Rattle.lrat_steps.specs.Log.{LogStep};

    ghost Value = { List LogStep };

    ghost use Rattle.lrat_steps.specs.Layout.{log_of, IsLaidOut};

    ghost view = { log_of };

    ghost invariant = { IsLaidOut };
}

impl Log {
    /// No steps. It takes no memory.
    pub fn new(alloc: Global) -> Log
        ensures { result ≡ [] }
    {
        log_over(alloc, Shown::none())
    }

    /// The log of a solver that was given these clauses, and nothing else. It takes no memory.
    pub fn of_given(alloc: Global, given: &Given) -> Result<Log, AllocError>
        ensures { IfOk result (λ log. log ≡ map Input given.now) }
    {
        let given = given.copy()?;
        Ok(log_over(alloc, Shown::all_of(given)))
    }

    /// No steps. Clauses that it is given first, in the order of these, take no memory.
    pub fn beside(alloc: Global, given: &Given) -> Result<Log, AllocError>
        ensures { IfOk result (λ log. log ≡ []) }
    {
        let given = given.copy()?;
        Ok(log_over(alloc, Shown::none_of(given)))
    }

    /// Adds a step, and gives its id.
    pub fn push(&mut self, step: LogStep<'_>) -> Result<u64, AllocError>
        ensures ok { OnOk result (self.new ≡ self.old ++ step_of step.entry ∷ []) }
        ensures id { IfOk result (λ id. id ≡ length (steps_of self.new)) }
        ensures err { OnErr result (self.new ≡ self.old) }
    {
        if let LogStep::Input(lits) = step {
            if self.show(lits) {
                return Ok(self.len());
            }
        }
        self.push_own(step)?;
        Ok(self.len())
    }

    // Shows one more of the given clauses, if it is this one and there are no other steps, and says whether it did.
    fn show(&mut self, lits: &[Lit]) -> bool
        ensures shown { IsTrue result → self.new ≡ self.old ++ Input lits.now ∷ [] }
        ensures other { IsFalse result → self.new ≡ self.old }
    {
        if self.records.len() > 0 || !self.shown.show(lits) {
            return false;
        }
        // All that it has are inputs.
        self.inputs = self.shown.len();
        true
    }

    // Adds a step of its own.
    fn push_own(&mut self, step: LogStep<'_>) -> Result<(), AllocError>
        ensures ok { OnOk result (self.new ≡ self.old ++ step_of step.entry ∷ []) }
        ensures err { OnErr result (self.new ≡ self.old) }
    {
        let parts = parts_of(step);
        let id = next_id(self.count(), parts.hints)?;
        // Room first, so that all is as it was where there is none.
        self.records.reserve(1)?;
        self.steps.push(id, parts.lits, parts.hints)?;
        let counts = counts_of(parts.kind);
        let inputs = self.inputs + counts.0;
        let learned = self.learned + counts.1;
        let live = self.live + counts.1;
        self.records.push_reserved(StepRecord {
            kind: parts.kind,
            inputs,
        });
        self.inputs = inputs;
        self.learned = learned;
        self.live = live;
        Ok(())
    }

    /// Marks that a learnt clause, which is live, is so no more. Its step stays, and may be named still.
    pub fn forget(&mut self, id: u64) -> Result<(), AllocError>
        requires live { IsLiveLearned self.old id }
        ensures ok { OnOk result (self.new ≡ self.old ++ Forgot id ∷ []) }
        ensures err { OnErr result (self.new ≡ self.old) }
    {
        let steps = self.count();
        let live = self.live - 1;
        self.marks.push(Mark {
            steps,
            id: id as u32,
        })?;
        self.live = live;
        Ok(())
    }

    /// How many steps it has, which is the id of the last one.
    pub fn len(&self) -> u64
        ensures { result ≡ length (steps_of self.now) }
    {
        u64::from(self.count())
    }

    /// How many clauses were learnt, forgotten or not.
    pub fn learned(&self) -> u64
        ensures { result ≡ learned_count self.now }
    {
        self.learned
    }

    /// How many learnt clauses are live.
    pub fn live_learned(&self) -> u64
        ensures { result ≡ live_count self.now }
    {
        self.live
    }

    /// How many clauses were given.
    pub fn inputs(&self) -> u64
        ensures { result ≡ length (inputs_of self.now) }
    {
        u64::from(self.inputs)
    }

    /// What the step of an id is.
    pub fn kind(&self, id: u64) -> StepKind
        requires from_one { 0 < id }
        requires within { id ≤ length (steps_of self.now) }
        ensures { result ≡ kind_of (step_at self.now id) }
    {
        let shown = u64::from(self.shown.len());
        if id <= shown {
            return StepKind::Input;
        }
        self.records[(id - 1 - shown) as usize].kind
    }

    /// The clause of the step of an id.
    pub fn lits(&self, id: u64) -> &[Lit]
        requires from_one { 0 < id }
        requires within { id ≤ length (steps_of self.now) }
        ensures { result.now ≡ lits_of (step_at self.now id) }
    {
        let shown = u64::from(self.shown.len());
        if id <= shown {
            return self.shown.lits((id - 1) as u32);
        }
        self.steps.step((id - 1 - shown) as usize).lits
    }

    /// The ids of the clauses from which the step of an id follows, in the order of propagation. An input has none.
    pub fn hints(&self, id: u64) -> Hints<'_>
        requires from_one { 0 < id }
        requires within { id ≤ length (steps_of self.now) }
        ensures { ids_of result ≡ hints_of (step_at self.now id) }
    {
        let shown = u64::from(self.shown.len());
        if id <= shown {
            return Hints::Narrow(&[]);
        }
        self.steps.step((id - 1 - shown) as usize).hints
    }

    /// The derived step of an id, to be kept. It takes no memory, and fails where its block is held 2^63 times already.
    pub(crate) fn share(&self, id: u64) -> Result<SharedStep, AllocError>
        requires { IsDerivedId (steps_of self.now) id }
        ensures { IfOk result (λ step. step ≡ kept_at (steps_of self.now) id) }
    {
        let shown = u64::from(self.shown.len());
        self.steps.share((id - 1 - shown) as usize)
    }

    /// The derivation of the clause of a step, with the steps that it needs and no other. The clauses that were given
    /// keep their order and are numbered from 1, the steps on from there.
    pub fn trim(&self, alloc: Global, goal: u64) -> Result<Derivation, AllocError>
        requires honest { IsHonest self.now }
        requires from_one { 0 < goal }
        requires within { goal ≤ length (steps_of self.now) }
        ensures { IfOk result (λ d. (lits : List ℤ) → clause_of (known_of (db_of self.now)) goal ≡ Some lits → IsTrimmed self.now lits d) }
    {
        let goal = self.origin(goal);
        let cone = cone_of(self, alloc, goal)?;
        derivation_of(self, alloc, cone.as_slice(), goal)
    }

    // The step whose clause the step of an id only says again; the id itself where there is none. So a core that is an input
    // needs no step.
    fn origin(&self, id: u64) -> u64
        requires backward { IsBackward (steps_of self.now) }
        requires from_one { 0 < id }
        requires within { id ≤ length (steps_of self.now) }
        ensures from_one { 0 < result }
        ensures within { result ≤ length (steps_of self.now) }
        ensures same { lits_of (step_at self.now result) ≡ lits_of (step_at self.now id) }
    {
        let hints = self.hints(id);
        if hints.len() != 1 {
            return id;
        }
        let only = hints.at(0);
        if self.lits(only) == self.lits(id) {
            only
        } else {
            id
        }
    }

    // How many steps there are, how many of them are inputs, and how many inputs there are up to a step: few enough for
    // numbers of half the size.
    pub(crate) fn count(&self) -> u32
        ensures { result ≡ length (steps_of self.now) }
    {
        self.shown.len() + self.records.len() as u32
    }

    pub(crate) fn input_count(&self) -> u32
        ensures { result ≡ length (inputs_of (steps_of self.now)) }
    {
        self.inputs
    }

    pub(crate) fn input_number(&self, id: u64) -> u32
        requires from_one { 0 < id }
        requires within { id ≤ length (steps_of self.now) }
        ensures { result ≡ inputs_up_to (steps_of self.now) id }
    {
        let shown = u64::from(self.shown.len());
        if id <= shown {
            return id as u32;
        }
        self.records[(id - 1 - shown) as usize].inputs
    }
}

// A log of clauses that it shows.
fn log_over(alloc: Global, shown: Shown) -> Log
    ensures { result ≡ map Input shown }
{
    let inputs = shown.len();
    Log {
        shown,
        records: Vec::new(alloc),
        steps: StepArena::new(alloc),
        marks: Vec::new(alloc),
        inputs,
        learned: 0,
        live: 0,
    }
}

// The id of a step behind so many, where it and the step's hints fit.
fn next_id(steps: u32, hints: &[u64]) -> Result<u64, AllocError>
    ensures few { OnOk result (steps + 1 < 2 ^ 32) }
    ensures hints { OnOk result (All (λ h. h ≤ max_id) hints.now) }
    ensures id { IfOk result (λ id. id ≡ steps + 1) }
{
    let id = end_of(steps as usize, 1)?;
    if !are_small(hints) {
        return Err(AllocError);
    }
    Ok(u64::from(id))
}
