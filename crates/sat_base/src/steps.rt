//! Steps of a derivation.
//!
//! The literals of all steps stand one after another, and so do their hints, so that steps of any number are three pieces
//! of memory. Of each step a small span says where its own end: they begin where those of the step before it end, so no
//! beginning is kept.
ghost use Rattle.std.specs.Prelude.{◌≡◌, ◌≤◌, ◌<◌, [], ◌∷◌, ◌++◌, All, Some, OnOk, OnErr, length, slice_get, slice_index_or};
ghost use Rattle.sat_base.specs.Derivation.{max_id, HasIds};
ghost use Rattle.sat_base.specs.Cuts.{start};
ghost use Rattle.sat_base.specs.Hints.{kept_ids, ids_of};

use crate::arena::{end_of, push_both};
use crate::hints::{HintList, Hints, Ids};
use crate::lit::Lit;
use std::alloc::{AllocError, Global};
use std::marker::Model;

/// A step, lent by its derivation: its clause under its id, and the ids of the clauses that it follows from, in the
/// order of propagation.
#[derive(Clone, Copy)]
pub struct Step<'a> {
    pub id: u64,
    pub lits: &'a [Lit],
    pub hints: Hints<'a>,
}

/// A step as it is kept, lent.
#[derive(Clone, Copy)]
pub(crate) struct KeptStep<'a> {
    pub(crate) id: u64,
    pub(crate) lits: &'a [Lit],
    pub(crate) ids: Ids<'a>,
}

// The id of a step, and where its literals and hints end among those of all steps.
#[derive(Clone, Copy)]
struct StepSpan {
    id: u64,
    lits_to: u32,
    hints_to: u32,
}

/// Steps in the order in which they were added.
#[derive(Drop)]
pub(crate) struct Steps {
    spans: Vec<StepSpan>,
    lits: Vec<Lit>,
    hints: HintList,
}

impl Model for Steps {
    ghost use Rattle.std.specs.Prelude.{List};
    ghost use Rattle.sat_base.specs.Derivation.{Step};

    ghost Value = { List Step };

    ghost use Rattle.sat_base.specs.Spans.{steps_of, IsLaidOut};

    ghost view = { steps_of };

    ghost invariant = { IsLaidOut };
}

impl Steps {
    /// No steps. It takes no memory.
    pub(crate) fn new(alloc: Global) -> Steps
        ensures { result ≡ [] }
    {
        Steps {
            spans: Vec::new(alloc),
            lits: Vec::new(alloc),
            hints: HintList::new(alloc),
        }
    }

    /// Adds a step at the end. What doesn't fit is answered as want of memory.
    pub(crate) fn push(&mut self, id: u64, lits: &[Lit], hints: &[u64]) -> Result<(), AllocError>
        requires id { id ≤ max_id }
        requires hints { All (λ h. h ≤ max_id) hints.now }
        ensures ok { OnOk result (self.new ≡ self.old ++ record { id = id; lits = lits.now; hints = hints.now } ∷ []) }
        ensures err { OnErr result (self.new ≡ self.old) }
    {
        let lits_to = end_of(self.lits.len(), lits.len())?;
        let hints_to = end_of(self.hints.len(), hints.len())?;
        // Room first, so that all is as it was where there is none.
        self.spans.reserve(1)?;
        push_both(&mut self.lits, &mut self.hints, lits, hints)?;
        self.spans.push_reserved(StepSpan {
            id,
            lits_to,
            hints_to,
        });
        Ok(())
    }

    /// Gives back the memory that no step needs.
    pub(crate) fn shrink_to_fit(&mut self)
        ensures { self.new ≡ self.old }
    {
        self.spans.shrink_to_fit();
        self.lits.shrink_to_fit();
        self.hints.shrink_to_fit();
    }

    pub(crate) fn len(&self) -> usize
        ensures { result ≡ length self.now }
    {
        self.spans.len()
    }

    /// The step at a place, from 0.
    pub(crate) fn step(&self, at: usize) -> Step<'_>
        requires { at < length self.now }
        ensures { slice_get self.now at ≡ Some (record { id = result.id; lits = result.lits.now; hints = ids_of result.hints }) }
    {
        let kept = self.kept(at);
        Step {
            id: kept.id,
            lits: kept.lits,
            hints: kept.ids.as_they_are(),
        }
    }

    /// The step at a place as it is kept.
    pub(crate) fn kept(&self, at: usize) -> KeptStep<'_>
        requires { at < length self.now }
        ensures { slice_get self.now at ≡ Some (record { id = result.id; lits = result.lits.now; hints = kept_ids result.ids }) }
    {
        let before = span_before(self.spans.as_slice(), at);
        let span = self.spans[at];
        KeptStep {
            id: span.id,
            lits: &self.lits[before.lits_to as usize..span.lits_to as usize],
            ids: self
                .hints
                .range(before.hints_to as usize, span.hints_to as usize),
        }
    }

    /// That all numbers are small enough, beside a goal that is. It does nothing: the fact is what its callers want.
    pub(crate) fn ids_fit(&self, goal: u64)
        requires { goal ≤ max_id }
        ensures { HasIds (record { steps = self.now; goal = goal }) }
    {
        let _spans = &self.spans;
    }
}

// The span before a place. Before the first one nothing stands.
fn span_before(spans: &[StepSpan], at: usize) -> StepSpan
    requires { at ≤ length spans.now }
    ensures { result ≡ slice_index_or (start ∷ spans.now) at start }
{
    if at == 0 {
        return StepSpan {
            id: 0,
            lits_to: 0,
            hints_to: 0,
        };
    }
    spans[at - 1]
}
