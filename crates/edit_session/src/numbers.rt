//! Literals and ids in a longer problem.
//!
//! A selector's variable stands behind the variables of its problem, and a step's id behind the clauses. So both move where
//! there are more of these, and all else keeps its number. The ids of an accepted derivation ascend, mostly without gaps: a
//! step is looked for at the place where it stands if there are none, and else by halving.
ghost use Rattle.std.specs.Prelude.{◌≡◌, ◌+◌, ◌≤◌, ◌<◌, ◌↔◌, map, length, All, IsTrue, OnOk, IfOk};
ghost use Rattle.sat_base.specs.Literals.{var_of};
ghost use Rattle.sat_base.specs.Derivation.{max_id};
ghost use Rattle.sat_base.specs.Hints.{ids_of};
ghost use Rattle.sat_base.specs.Numbering.{Ascends, place_in};
ghost use Rattle.edit_session.specs.Carried.{carried_lit, carried_id, ids_in};

use gm_base::{Derivation, Hints, Lit, Problem};
use std::alloc::{AllocError, Global};

/// The greatest number of an id.
const MAX_ID: u64 = (1 << 63) - 1;

/// The ids of a derivation's steps.
pub fn step_ids(alloc: Global, proof: &Derivation) -> Result<Vec<u64>, AllocError>
    ensures { IfOk result (λ ids. ids.items ≡ ids_in proof.now.steps) }
{
    let mut ids = Vec::new(alloc);
    ids.reserve_exact(proof.len())?;
    for at in 0..proof.len() {
        ids.push(proof.step(at).id)?;
    }
    Ok(ids)
}

/// A literal as it is in the longer problem.
pub fn carried_lit(old: &Problem, new: &Problem, lit: Lit) -> Lit
    requires groups { old.now.groups ≤ new.now.groups }
    requires within { var_of lit ≤ old.now.vars + old.now.groups }
    ensures { result ≡ carried_lit old.now new.now lit }
{
    if lit.var() <= old.vars() {
        return lit;
    }
    let _groups = (old.groups(), new.groups()); // The variables of all selectors are small.
    let var = (new.vars() + (lit.var() - old.vars())) as i32;
    if lit.is_positive() {
        Lit::new(var)
    } else {
        Lit::new(-var)
    }
}

/// Puts the literals of a step, as they are in the longer problem, in place of what was there.
pub fn write_lits(
    old: &Problem,
    new: &Problem,
    lits: &[Lit],
    out: &mut Vec<Lit>,
) -> Result<(), AllocError>
    requires groups { old.now.groups ≤ new.now.groups }
    requires within { All (λ l. var_of l ≤ old.now.vars + old.now.groups) lits.now }
    ensures { OnOk result (out.new.items ≡ map (carried_lit old.now new.now) lits.now) }
{
    out.clear();
    for lit in lits {
        out.push(carried_lit(old, new, *lit))?;
    }
    Ok(())
}

/// The id of a clause in the longer problem, behind which steps with these ids are numbered on.
pub fn carried_id(old: &Problem, new: &Problem, ids: &[u64], id: u64) -> u64
    requires ascend { Ascends ids.now }
    requires small { id ≤ max_id }
    requires fits { length new.now.clauses + 1 + length ids.now ≤ max_id }
    ensures is { result ≡ carried_id old.now new.now ids.now id }
    ensures small { result ≤ max_id }
{
    let given = old.len() as u64;
    if id <= given {
        return id;
    }
    new.len() as u64 + 1 + place_of(ids, id - given - 1, id)
}

/// The place of the step with this id, or how many there are where none has it. It may stand at the place that is guessed.
fn place_of(ids: &[u64], guess: u64, id: u64) -> u64
    requires { Ascends ids.now }
    ensures place { result ≡ place_in ids.now id }
    ensures within { result ≤ length ids.now }
{
    if guess < ids.len() as u64 && ids[guess as usize] == id {
        return guess;
    }
    by_halving(ids, id)
}

fn by_halving(ids: &[u64], id: u64) -> u64
    requires { Ascends ids.now }
    ensures place { result ≡ place_in ids.now id }
    ensures within { result ≤ length ids.now }
{
    match ids.binary_search(&id) {
        Ok(at) => at as u64,
        Err(_) => ids.len() as u64,
    }
}

/// Whether the steps of a derivation have numbers behind the clauses of the longer problem.
pub fn have_numbers(clauses: usize, steps: usize) -> bool
    ensures { IsTrue result ↔ (clauses + 1 + steps ≤ max_id) }
{
    (steps as u64) < MAX_ID && (clauses as u64) < MAX_ID - steps as u64
}

/// Puts the hints of a step, as they are in the longer problem, in place of what was there.
pub fn write_hints(
    old: &Problem,
    new: &Problem,
    ids: &[u64],
    hints: Hints<'_>,
    out: &mut Vec<u64>,
) -> Result<(), AllocError>
    requires ascend { Ascends ids.now }
    requires small { All (λ h. h ≤ max_id) (ids_of hints) }
    requires fits { length new.now.clauses + 1 + length ids.now ≤ max_id }
    ensures hints { OnOk result (out.new.items ≡ map (carried_id old.now new.now ids.now) (ids_of hints.entry)) }
    ensures small { OnOk result (All (λ h. h ≤ max_id) out.new.items) }
{
    out.clear();
    for at in 0..hints.len() {
        out.push(carried_id(old, new, ids, hints.at(at)))?;
    }
    Ok(())
}
