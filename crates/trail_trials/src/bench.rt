//! A store and a trail, of which always holds what propagation needs.
//!
//! One that parks no watch is a caller that has nothing to do with parking: it propagates by `propagate`, and goes back by the
//! trail alone. That nothing is parked is part of what always holds of it.
ghost use Rattle.std.specs.Prelude.{◌≡◌, ◌<◌, ◌^◌, IfOk};
ghost use Rattle.sat_base.specs.Literals.{AreLiterals, IsLiteral};

use clause_store::Store;
use propagate::laws::back_keeps;
use propagate::{Propagated, back_to, enter, propagate, propagate_parking};
use sat_base::Lit;
use std::alloc::{AllocError, Global};
use std::marker::Model;
use trail_book::Trail;

/// Clauses and values. Contracts see how many variables there are.
#[derive(Drop)]
pub struct Bench {
    pub store: Store,
    pub trail: Trail,
    parks: bool,
}

impl Model for Bench {
    ghost use Rattle.std.specs.Prelude.{◌≡◌, ℕ, false};
    ghost use Rattle.propagate.specs.Watches.{IsKept, IsUnparked};

    ghost Value = { ℕ };

    ghost view = { λ bench. bench.store.vars };

    ghost invariant = { λ bench. IsKept bench.store bench.trail × (bench.parks ≡ false → IsUnparked bench.store) };
}

impl Bench {
    /// No clauses and no values. Watches are parked or not.
    pub fn new(alloc: Global, vars: u32, parks: bool) -> Result<Bench, AllocError>
        requires { vars < 2 ^ 31 }
        ensures { IfOk result (λ bench. bench ≡ vars) }
    {
        Ok(Bench {
            store: Store::new(alloc, vars)?,
            trail: Trail::new(alloc, vars)?,
            parks,
        })
    }

    pub fn vars(&self) -> u32
        ensures vars { result ≡ self.now }
        ensures small { result < 2 ^ 31 }
    {
        self.store.vars()
    }

    /// Adds a clause.
    pub fn add(&mut self, lits: &[Lit]) -> Result<(), AllocError>
        requires { AreLiterals self.old lits.now }
        ensures { self.new ≡ self.old }
    {
        let id = self.store.add(lits, true)?;
        enter(&mut self.store, &mut self.trail, id, lits);
        Ok(())
    }

    /// Propagates. Gives the id of the falsified clause, if there is one.
    pub fn propagate(&mut self) -> Option<u64>
        ensures { self.new ≡ self.old }
    {
        if self.parks {
            falsified(propagate_parking(&mut self.store, &mut self.trail))
        } else {
            falsified(propagate(&mut self.store, &mut self.trail))
        }
    }

    /// Decides a literal that has no value, where all values have been propagated, and tells whether it did.
    pub fn decide(&mut self, lit: Lit) -> bool
        requires { IsLiteral self.old lit }
        ensures { self.new ≡ self.old }
    {
        if self.trail.value(lit).is_some() || self.trail.done() < self.trail.len() {
            return false;
        }
        self.trail.decide(lit);
        true
    }

    /// Takes back the levels above this one.
    pub fn back(&mut self, level: u32)
        ensures { self.new ≡ self.old }
    {
        if self.parks {
            back_to(&mut self.store, &mut self.trail, level);
        } else {
            let _vars = self.trail.vars(); // It is a trail.
            back_keeps();
            self.trail.back_to(level);
        }
    }
}

fn falsified(told: Propagated) -> Option<u64> {
    match told {
        Propagated::Fixpoint => None,
        Propagated::Conflict(id) => Some(id),
    }
}
