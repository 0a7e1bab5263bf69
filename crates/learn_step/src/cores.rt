//! Cores of assumptions.
//!
//! What is false under assumptions is made false by decisions: each other value has a clause that forced it, and that
//! is resolved away. What is left is a clause of negated decisions (MiniSat's final conflict: Eén and Sörensson 2003).
ghost use Rattle.std.specs.Prelude.{◌≡◌, ◌<◌, ◌≤◌, length, [], ◌∷◌, neg_ℤ, IfOk, OnOk};
ghost use Rattle.sat_base.specs.Members.{In};
ghost use Rattle.trail_book.specs.Trail.{trues};
ghost use Rattle.learn_step.specs.Reasons.{AreReasoned, IsFalse, IsFalseClause, IsDecision};
ghost use Rattle.learn_step.specs.Learnt.{IsCore, start_of};
ghost use Rattle.learn_step.specs.Analysis.{IsCoreAnalysis};

use crate::analysis::{Analysis, hint};
use crate::learnt::Learnt;
use crate::origin::Origin;
use clause_store::Store;
use sat_base::Lit;
use std::alloc::{AllocError, Global};
use trail_book::Trail;

/// The negated decisions that make a clause or an assumption false. `back_level` is 0.
pub fn core_of(
    alloc: Global,
    store: &Store,
    trail: &Trail,
    origin: Origin,
) -> Result<Learnt, AllocError>
    requires vars { store.now.vars ≡ trail.now.vars }
    requires reasoned { AreReasoned store.now.clauses trail.now.entries }
    requires is_false { IsFalse store.now.clauses trail.now.entries origin }
    ensures core { IfOk result (λ learnt. IsCore store.now.clauses trail.now.entries (start_of origin) learnt.lits.items learnt.hints.items) }
    ensures back_level { IfOk result (λ learnt. learnt.back_level ≡ 0) }
{
    let _vars = trail.vars();
    let mut analysis = begin(alloc, store, trail, origin)?;
    to_decisions(&mut analysis, store, trail)?;
    Ok(analysis.finish(0))
}

/// Begins with what is false.
fn begin(
    alloc: Global,
    store: &Store,
    trail: &Trail,
    origin: Origin,
) -> Result<Analysis, AllocError>
    requires reasoned { AreReasoned store.now.clauses trail.now.entries }
    requires is_false { IsFalse store.now.clauses trail.now.entries origin }
    ensures lits { IfOk result (λ analysis. analysis.lits.items ≡ start_of origin) }
    ensures core { IfOk result (λ analysis. IsCoreAnalysis store.now.clauses trail.now.entries (start_of origin) analysis.places analysis.lits.items analysis.hints.items) }
{
    match origin {
        Origin::Conflict(id) => from_clause(alloc, store, trail, id),
        Origin::Assumption(lit) => from_assumption(alloc, store, trail, lit),
    }
}

/// Resolves all literals away whose negations were forced, and keeps the others.
fn to_decisions(analysis: &mut Analysis, store: &Store, trail: &Trail) -> Result<(), AllocError>
    requires reasoned { AreReasoned store.now.clauses trail.now.entries }
    requires core { IsCoreAnalysis store.now.clauses trail.now.entries analysis.old.lits.items analysis.old.places analysis.old.lits.items analysis.old.hints.items }
    ensures { OnOk result (IsCoreAnalysis store.now.clauses trail.now.entries analysis.old.lits.items [] analysis.new.lits.items analysis.new.hints.items) }
{
    let _vars = trail.vars();
    while let Some(place) = analysis.take_place(trail) {
        let stays = hint(&trail.entry(place)).is_none();
        analysis.step(store, trail, place, stays)?;
    }
    Ok(())
}

/// Begins with a clause that is false.
fn from_clause(alloc: Global, store: &Store, trail: &Trail, id: u64) -> Result<Analysis, AllocError>
    requires { IsFalseClause store.now.clauses trail.now.entries id }
    ensures lits { IfOk result (λ analysis. analysis.lits.items ≡ []) }
    ensures core { IfOk result (λ analysis. IsCoreAnalysis store.now.clauses trail.now.entries [] analysis.places analysis.lits.items analysis.hints.items) }
{
    let _vars = trail.vars();
    let mut analysis = Analysis::new(alloc);
    analysis.bring_in(store, trail, id, trail.len())?;
    Ok(analysis)
}

/// Begins with the clause that forced the negation of an assumption, which stays.
fn from_assumption(
    alloc: Global,
    store: &Store,
    trail: &Trail,
    assumed: Lit,
) -> Result<Analysis, AllocError>
    requires reasoned { AreReasoned store.now.clauses trail.now.entries }
    requires is_false { In (neg_ℤ assumed) (trues trail.now.entries) }
    requires forced { ¬ IsDecision trail.now.entries (neg_ℤ assumed) }
    ensures lits { IfOk result (λ analysis. analysis.lits.items ≡ neg_ℤ assumed ∷ []) }
    ensures core { IfOk result (λ analysis. IsCoreAnalysis store.now.clauses trail.now.entries (neg_ℤ assumed ∷ []) analysis.places analysis.lits.items analysis.hints.items) }
{
    let _vars = trail.vars();
    let place = trail.place(assumed.var());
    let entry = trail.entry(place);
    let Some(id) = hint(&entry) else {
        unreachable!();
    };
    let mut analysis = Analysis::new(alloc);
    analysis.lits.push(assumed.negated())?;
    analysis.bring_in(store, trail, id, place)?;
    Ok(analysis)
}
