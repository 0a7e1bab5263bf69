//! Steps of derivations, by the words of a call.
ghost use Rattle.std.specs.Prelude.{◌≤◌, All, IfSome, IsTrue};
ghost use Rattle.sat_base.specs.Derivation.{max_id};

use sat_base::{DerivationBuilder, Lit, Lits};
use std::alloc::{AllocError, Global};
use trial_script::{Step, known};

/// The greatest id.
const MAX_ID: u64 = 9_223_372_036_854_775_807;

/// The id at this place, if there is one.
pub fn id_at(step: &Step<'_>, at: usize) -> Option<u64>
    ensures { IfSome result (λ id. id ≤ max_id) }
{
    match step.amount(at) {
        Some(id) if id <= MAX_ID => Some(id),
        _ => None,
    }
}

/// Adds the step of the call, an id, literals, 0 and hints, if each is one.
pub fn push_step(
    proof: &mut DerivationBuilder,
    alloc: Global,
    step: &Step<'_>,
) -> Result<bool, AllocError> {
    let lits = lits_from(alloc, step, 2)?;
    let end = lits.len().saturating_add(2);
    let hints = amounts_from(alloc, step, end.saturating_add(1))?;
    let Some(id) = id_at(step, 1) else {
        return Ok(false);
    };
    let behind = end.saturating_add(1).saturating_add(hints.len());
    if step.word(end) != "0" || behind != step.words().len() || !are_ids(hints.as_slice()) {
        return Ok(false);
    }
    known(proof.push(id, lits.as_slice(), hints.as_slice()))
}

/// The literals from this place on, up to the first word that is none.
fn lits_from(alloc: Global, step: &Step<'_>, from: usize) -> Result<Lits, AllocError> {
    let mut lits = Lits::new(alloc);
    for at in from..step.words().len() {
        let Some(lit) = lit_at(step, at) else {
            break;
        };
        lits.push(lit)?;
    }
    Ok(lits)
}

/// The literal at this place, if there is one.
pub fn lit_at(step: &Step<'_>, at: usize) -> Option<Lit> {
    let Some(number) = step.number(at) else {
        return None;
    };
    match i32::try_from(number) {
        Ok(number) if number != 0 && number != i32::MIN => Some(Lit::new(number)),
        _ => None,
    }
}

/// The numbers from this place on, up to the first word that is none.
fn amounts_from(alloc: Global, step: &Step<'_>, from: usize) -> Result<Vec<u64>, AllocError> {
    let mut amounts = Vec::new(alloc);
    for at in from..step.words().len() {
        let Some(number) = step.amount(at) else {
            break;
        };
        amounts.push(number)?;
    }
    Ok(amounts)
}

/// Whether all of these can be ids.
fn are_ids(numbers: &[u64]) -> bool
    ensures { IsTrue result → All (λ n. n ≤ max_id) numbers.now }
{
    for number in numbers {
        if *number > MAX_ID {
            return false;
        }
    }
    true
}
