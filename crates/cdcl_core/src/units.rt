//! Unit steps.
//!
//! A literal of level 0 holds under no decision, so a core that begins with it has no other literal: this is its unit
//! step. Conflict analysis names that step from then on, and no longer the chain of reasons behind the literal. The
//! step is not live and costs no unit, and the literal's reason stays the live clause that forced it. A literal whose
//! clause is a unit already needs no such step.
ghost use Rattle.std.specs.Prelude.{◌≡◌, ℕ, ◌<◌, length, OnOk};
ghost use Rattle.cdcl_core.specs.Answers.{IsHonestlyPaid};
ghost use Rattle.cdcl_core.specs.Search.{IsAtRoot, KeepsValues};

use crate::search::Search;
use crate::steps::log_core;
use learn_step::Origin;
use std::alloc::{AllocError, Global};

impl Search {
    /// Logs a unit step for each literal of level 0 that has none.
    pub fn log_units(&mut self, alloc: Global) -> Result<(), AllocError>
        requires { IsAtRoot self.old }
        ensures at_root { OnOk result (IsAtRoot self.new) }
        ensures keeps { OnOk result (KeepsValues self.old self.new) }
        ensures paid { (left : ℕ) → IsHonestlyPaid self.old.log self.new.log left left }
        ensures vars { self.new.trail.vars ≡ self.old.trail.vars }
        ensures touched { self.new.trail.touched ≡ self.old.trail.touched }
        ensures true_first { self.new.true_first ≡ self.old.true_first }
    {
        let len = self.trail.len();
        for place in self.rooted..len {
            self.log_unit(alloc, place)?;
        }
        self.rooted = len;
        Ok(())
    }

    // Logs that of the literal at a place.
    fn log_unit(&mut self, alloc: Global, place: u32) -> Result<(), AllocError>
        requires at_root { IsAtRoot self.old }
        requires place { place < length self.old.trail.entries }
        ensures at_root { OnOk result (IsAtRoot self.new) }
        ensures keeps { OnOk result (KeepsValues self.old self.new) }
        ensures paid { (left : ℕ) → IsHonestlyPaid self.old.log self.new.log left left }
        ensures vars { self.new.trail.vars ≡ self.old.trail.vars }
        ensures touched { self.new.trail.touched ≡ self.old.trail.touched }
        ensures true_first { self.new.true_first ≡ self.old.true_first }
    {
        let entry = self.trail.entry(place);
        let Some(reason) = entry.reason else {
            return Ok(());
        };
        if self.store.lits(reason).len() == 1 {
            return Ok(());
        }
        let origin = Origin::Assumption(entry.lit.negated());
        let id = log_core(alloc, &mut self.log, &mut self.store, &self.trail, origin)?;
        self.trail.set_unit(entry.lit.var(), id);
        Ok(())
    }
}
