//! Steps, in the log and in the store.
//!
//! The clauses of the store are those of the log's steps, in the same order. So a step has one id, which is its place,
//! and the clauses are live or not as the step says.
ghost use Rattle.std.specs.Prelude.{◌≡◌, ℕ, ◌++◌, ◌∷◌, [], length, IfOk, OnOk, OnErr};
ghost use Rattle.sat_base.specs.Literals.{AreLiterals};
ghost use Rattle.lrat_steps.specs.Log.{step_of, lits_of, is_live, stored};
ghost use Rattle.clause_store.specs.Links.{KeepsLinks};
ghost use Rattle.propagate.specs.Watches.{IsKept};
ghost use Rattle.learn_step.specs.Reasons.{AreReasoned, IsFalse};
ghost use Rattle.learn_step.specs.Learnt.{start_of};
ghost use Rattle.cdcl_core.specs.Answers.{IsHonestlyPaid};
ghost use Rattle.cdcl_core.specs.State.{IsRecorded};
ghost use Rattle.cdcl_core.specs.Search.{IsCoreAdded};

use clause_store::Store;
use learn_step::{Origin, core_of};
use lrat_steps::{Log, LogStep};
use sat_base::Lit;
use std::alloc::{AllocError, Global};
use trail_book::Trail;

fn literals<'a>(step: LogStep<'a>) -> &'a [Lit]
    ensures { result.now ≡ lits_of (step_of step.entry) }
{
    match step {
        LogStep::Input(lits) => lits,
        LogStep::Learned(lits, _) => lits,
        LogStep::Core(lits, _) => lits,
    }
}

fn is_live(step: LogStep<'_>) -> bool
    ensures { result ≡ is_live (step_of step.entry) }
{
    match step {
        LogStep::Input(_) => true,
        LogStep::Learned(_, _) => true,
        LogStep::Core(_, _) => false,
    }
}

/// Adds a step to the log and its clause to the store, both or neither.
pub fn add_step(log: &mut Log, store: &mut Store, step: LogStep<'_>) -> Result<u64, AllocError>
    requires { AreLiterals store.old.vars (lits_of (step_of step)) }
    ensures logged { OnOk result (log.new ≡ log.old ++ step_of step.entry ∷ []) }
    ensures stored { OnOk result (store.new.clauses ≡ store.old.clauses ++ stored (step_of step.entry) ∷ []) }
    ensures id { IfOk result (λ id. id ≡ length store.new.clauses) }
    ensures log_err { OnErr result (log.new ≡ log.old) }
    ensures store_err { OnErr result (store.new.clauses ≡ store.old.clauses) }
    ensures vars { store.new.vars ≡ store.old.vars }
    ensures links { KeepsLinks store.old store.new }
{
    let lits = literals(step);
    store.reserve(1, lits.len() as u64)?;
    log.push(step)?;
    Ok(store.add_reserved(lits, is_live(step)))
}

/// Logs the core of what is false.
pub fn log_core(
    alloc: Global,
    log: &mut Log,
    store: &mut Store,
    trail: &Trail,
    origin: Origin,
) -> Result<u64, AllocError>
    requires recorded { IsRecorded trail.now.vars store.old.clauses log.old }
    requires vars { store.old.vars ≡ trail.now.vars }
    requires reasoned { AreReasoned store.old.clauses trail.now.entries }
    requires is_false { IsFalse store.old.clauses trail.now.entries origin }
    ensures added { IfOk result (λ id. IsCoreAdded store.old.clauses store.new.clauses log.old log.new trail.now.entries (start_of origin) id) }
    ensures paid { (left : ℕ) → IsHonestlyPaid log.old log.new left left }
    ensures vars { store.new.vars ≡ store.old.vars }
    ensures kept { OnOk result (IsKept store.old trail.now → IsKept store.new trail.now) }
    ensures false_id { store.new.false_id ≡ store.old.false_id }
{
    let core = core_of(alloc, store, trail, origin)?;
    let id = add_step(log, store, LogStep::Core(&core.lits, &core.hints))?;
    Ok(id)
}
