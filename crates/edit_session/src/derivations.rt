//! Derivations over the clauses of a longer problem.
ghost use Rattle.std.specs.Prelude.{◌≡◌, ◌+◌, ◌≤◌, true, [], ◌∷◌, ◌++◌, map, length, All, OnOk, IfOk};
ghost use Rattle.sat_base.specs.Literals.{var_of};
ghost use Rattle.sat_base.specs.Derivation.{max_id, is_derivation};
ghost use Rattle.sat_base.specs.Hints.{ids_of};
ghost use Rattle.gm_base.specs.Evidence.{selector_form};
ghost use Rattle.sat_base.specs.Numbering.{Ascends};
ghost use Rattle.edit_session.specs.Carried.{carried_step, carried_proof};
ghost use Rattle.edit_session.specs.Opening.{AreOver};

use crate::numbers::{carried_id, have_numbers, step_ids, write_hints, write_lits};
use gm_base::{Derivation, DerivationBuilder, Lit, Problem, Step};
use std::alloc::{AllocError, Global};

/// A derivation over the clauses of the old problem as one over those of the longer one.
pub fn carried_proof(
    alloc: Global,
    old: &Problem,
    new: &Problem,
    proof: &Derivation,
) -> Result<Derivation, AllocError>
    requires groups { old.now.groups ≤ new.now.groups }
    requires derives { is_derivation (old.now.vars + old.now.groups) (selector_form old.now) proof.now ≡ true }
    ensures { IfOk result (λ carried. carried ≡ carried_proof old.now new.now proof.now) }
{
    let ids = step_ids(alloc, proof)?;
    if !have_numbers(new.len(), ids.len()) {
        return Err(AllocError);
    }
    let goal = carried_id(old, new, ids.as_slice(), proof.goal());
    let mut builder = DerivationBuilder::new(alloc, goal);
    push_steps(alloc, old, new, ids.as_slice(), proof, &mut builder)?;
    builder.finish(alloc)
}

/// Adds the steps of a derivation, in order. Two lists serve for the literals and the hints of each.
fn push_steps(
    alloc: Global,
    old: &Problem,
    new: &Problem,
    ids: &[u64],
    proof: &Derivation,
    builder: &mut DerivationBuilder,
) -> Result<(), AllocError>
    requires groups { old.now.groups ≤ new.now.groups }
    requires ascend { Ascends ids.now }
    requires fits { length new.now.clauses + 1 + length ids.now ≤ max_id }
    requires over { AreOver (old.now.vars + old.now.groups) proof.now.steps }
    ensures { OnOk result (builder.new ≡ record builder.old { steps = builder.old.steps ++ map (carried_step old.now new.now ids.now) proof.now.steps }) }
{
    let mut lits = Vec::new(alloc);
    let mut hints = Vec::new(alloc);
    let _goal = proof.goal(); // Its numbers are small.
    for at in 0..proof.len() {
        let step = proof.step(at);
        push_step(old, new, ids, step, &mut lits, &mut hints, builder)?;
    }
    Ok(())
}

/// Adds a step.
fn push_step(
    old: &Problem,
    new: &Problem,
    ids: &[u64],
    step: Step<'_>,
    lits: &mut Vec<Lit>,
    hints: &mut Vec<u64>,
    builder: &mut DerivationBuilder,
) -> Result<(), AllocError>
    requires groups { old.now.groups ≤ new.now.groups }
    requires ascend { Ascends ids.now }
    requires fits { length new.now.clauses + 1 + length ids.now ≤ max_id }
    requires over { All (λ l. var_of l ≤ old.now.vars + old.now.groups) step.lits.now }
    requires id { step.id ≤ max_id }
    requires small { All (λ h. h ≤ max_id) (ids_of step.hints) }
    ensures { OnOk result (builder.new ≡ record builder.old { steps = builder.old.steps ++ carried_step old.now new.now ids.now (record { id = step.entry.id; lits = step.entry.lits.now; hints = ids_of step.entry.hints }) ∷ [] }) }
{
    write_lits(old, new, step.lits, lits)?;
    write_hints(old, new, ids, step.hints, hints)?;
    builder.push(
        carried_id(old, new, ids, step.id),
        lits.as_slice(),
        hints.as_slice(),
    )
}
