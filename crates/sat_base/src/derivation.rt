//! Derivations.
//!
//! A derivation is a list of steps, each a clause that follows from the input clauses and the steps before it by unit
//! propagation along its hints, and the id of the clause that it is made for: its goal (LRAT: Cruz-Filipe and others
//! 2017). Whether the steps follow is for a checker to say; the type keeps that each number is one that an evidence
//! text can hold.
//!
//! The same refutation stands in many records. So a derivation is made by a builder, which has it alone, and is shared
//! once it is finished: a copy is one more reference to the same steps. What a log derives is not even copied out of the log: it
//! holds the steps that it needs where they stand ([`Derivation::of_log`]).
ghost use Rattle.std.specs.Prelude.{◌≡◌, ◌≤◌, ◌<◌, [], ◌∷◌, ◌++◌, All, Some, IfOk, OnOk, OnErr, length, map, slice_get};
ghost use Rattle.sat_base.specs.Derivation.{Derivation, max_id, HasIds};
ghost use Rattle.sat_base.specs.Hints.{ids_of};
ghost use Rattle.sat_base.specs.Numbering.{renumbered};

use crate::cone::Cone;
use crate::lit::Lit;
use crate::numbering::Numbering;
use crate::step_arena::SharedStep;
use crate::steps::{Step, Steps};
use std::alloc::{AllocError, Global};
use std::marker::Model;
use std::sync::Arc;

/// A derivation that is being made.
#[derive(Drop)]
pub struct DerivationBuilder {
    goal: u64,
    steps: Steps,
}

impl Model for DerivationBuilder {
    ghost use Rattle.std.specs.Prelude.{◌≤◌};
    ghost use Rattle.sat_base.specs.Derivation.{Derivation, max_id};

    ghost Value = { Derivation };

    ghost view = { λ builder. record { steps = builder.steps; goal = builder.goal } };

    ghost invariant = { λ builder. builder.goal ≤ max_id };
}

impl DerivationBuilder {
    /// No steps, for a goal that may be an input clause. It takes no memory.
    pub fn new(alloc: Global, goal: u64) -> DerivationBuilder
        requires { goal ≤ max_id }
        ensures { result ≡ record { steps = []; goal = goal } }
    {
        DerivationBuilder {
            goal,
            steps: Steps::new(alloc),
        }
    }

    /// Makes it for another goal. What is read has its goal behind the steps.
    pub fn aim_at(&mut self, goal: u64)
        requires { goal ≤ max_id }
        ensures { self.new ≡ record self.old { goal = goal } }
    {
        self.goal = goal;
    }

    /// Adds a step at the end.
    pub fn push(&mut self, id: u64, lits: &[Lit], hints: &[u64]) -> Result<(), AllocError>
        requires id { id ≤ max_id }
        requires hints { All (λ h. h ≤ max_id) hints.now }
        ensures ok { OnOk result (self.new ≡ record self.old { steps = self.old.steps ++ record { id = id; lits = lits.now; hints = hints.now } ∷ [] }) }
        ensures err { OnErr result (self.new ≡ self.old) }
    {
        self.steps.push(id, lits, hints)?;
        Ok(())
    }

    /// The derivation, which is shared from now on, in just as much memory as its steps need.
    pub fn finish(self, alloc: Global) -> Result<Derivation, AllocError>
        ensures { IfOk result (λ derivation. derivation ≡ self) }
    {
        let DerivationBuilder { goal, mut steps } = self;
        steps.shrink_to_fit();
        let steps = Arc::new(alloc, steps)?;
        Ok(Derivation {
            goal,
            body: Body::Own(steps),
        })
    }
}

// The steps, its own or those of a log.
#[derive(Drop)]
enum Body {
    Own(Arc<Steps, Global>),
    Shared(Arc<Cone, Global>),
}

/// Steps, and the id of the clause that they are made for.
#[derive(Drop)]
pub struct Derivation {
    goal: u64,
    body: Body,
}

impl Model for Derivation {
    ghost use Rattle.std.specs.Prelude.{◌≤◌};
    ghost use Rattle.sat_base.specs.Derivation.{Derivation, max_id};
    ghost use Rattle.sat_base.specs.Bodies.{body_steps};

    ghost Value = { Derivation };

    ghost view = { λ derivation. record { steps = body_steps derivation.body; goal = derivation.goal } };

    ghost invariant = { λ derivation. derivation.goal ≤ max_id };
}

impl Derivation {
    /// Steps of a log, which stay where they are, under numbers without gaps.
    pub fn of_log(
        alloc: Global,
        goal: u64,
        by: Numbering,
        steps: Vec<SharedStep>,
    ) -> Result<Derivation, AllocError>
        requires { goal ≤ max_id }
        ensures { IfOk result (λ derivation. derivation ≡ record { steps = map (renumbered by) steps.items; goal = goal }) }
    {
        let cone = Arc::new(alloc, Cone::new(by, steps))?;
        Ok(Derivation {
            goal,
            body: Body::Shared(cone),
        })
    }

    /// How many steps it has.
    pub fn len(&self) -> usize
        ensures { result ≡ length self.now.steps }
    {
        match &self.body {
            Body::Own(steps) => steps.len(),
            Body::Shared(cone) => cone.len(),
        }
    }

    /// The step at a place, from 0.
    pub fn step(&self, at: usize) -> Step<'_>
        requires { at < length self.now.steps }
        ensures { slice_get self.now.steps at ≡ Some (record { id = result.id; lits = result.lits.now; hints = ids_of result.hints }) }
    {
        match &self.body {
            Body::Own(steps) => steps.step(at),
            Body::Shared(cone) => cone.step(at),
        }
    }

    /// The id of the clause that it is made for.
    pub fn goal(&self) -> u64
        ensures goal { result ≡ self.now.goal }
        ensures ids { HasIds self.now }
    {
        match &self.body {
            Body::Own(steps) => steps.ids_fit(self.goal),
            Body::Shared(cone) => cone.ids_fit(self.goal),
        }
        self.goal
    }

    /// One more reference to it. It takes no memory, and fails where there are 2^63 references already.
    pub fn copy(&self) -> Result<Derivation, AllocError>
        ensures { IfOk result (λ copy. copy ≡ self.now) }
    {
        let body = match &self.body {
            Body::Own(steps) => Body::Own(Arc::try_clone(steps)?),
            Body::Shared(cone) => Body::Shared(Arc::try_clone(cone)?),
        };
        Ok(Derivation {
            goal: self.goal,
            body,
        })
    }
}
