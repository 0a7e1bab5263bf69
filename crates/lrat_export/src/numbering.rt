//! The numbers of clauses.
//!
//! All clauses of a proof have an entry each: first those of the problem and then those of the steps, under the ids that the
//! proof's hints name. What stays gets the next number, and what the selectors make true gets none. The ids ascend: an entry
//! is looked for at the place where it stands if no id is left out, and else by halving.
ghost use Rattle.std.specs.Prelude.{◌≡◌, ℕ, [], ◌∷◌, ◌++◌, map, not, List, ℤ, IfOk, IfSome, IfNone};
ghost use Rattle.sat_base.specs.Derivation.{numbered, all_known};
ghost use Rattle.gm_base.specs.Evidence.{selector_form};
ghost use Rattle.lrat_export.specs.Export.{is_true, is_settled, known_of};
ghost use Rattle.lrat_export.specs.Numbers.{entry_of, AreEntries, Ascend, IsAt, HasNoId};

use crate::cnf::is_present;
use crate::table::GroupTable;
use gm_base::{Derivation, Lit, Problem};
use std::alloc::{AllocError, Global};

/// The id of a clause, and the number that it gets, or 0 where it goes.
#[derive(Clone, Copy)]
pub struct Entry {
    pub id: u64,
    pub number: u64,
}

/// The entries of all clauses of a proof.
pub fn number_all(
    alloc: Global,
    problem: &Problem,
    set: &GroupTable<'_>,
    proof: &Derivation,
) -> Result<Vec<Entry>, AllocError>
    ensures { IfOk result (λ entries. entries.items ≡ map entry_of (known_of problem.now set.now proof.now)) }
{
    let mut entries = Vec::new(alloc);
    let next = number_inputs(&mut entries, problem, set)?;
    number_steps(&mut entries, problem, set, proof, next)?;
    Ok(entries)
}

/// Adds the entries of the problem's clauses. The answer is the number behind.
fn number_inputs(
    entries: &mut Vec<Entry>,
    problem: &Problem,
    set: &GroupTable<'_>,
) -> Result<u64, AllocError>
    requires { entries.old.items ≡ [] }
    ensures { IfOk result (λ next. AreEntries problem.now.vars set.now (numbered 1 (selector_form problem.now)) entries.new.items next) }
{
    let mut next = 1;
    for at in 0..problem.len() {
        let stays = is_present(problem.clause(at), set);
        next = add(entries, at as u64 + 1, stays, next)?;
    }
    Ok(next)
}

/// Adds the entries of the steps.
fn number_steps(
    entries: &mut Vec<Entry>,
    problem: &Problem,
    set: &GroupTable<'_>,
    proof: &Derivation,
    first: u64,
) -> Result<u64, AllocError>
    requires { AreEntries problem.now.vars set.now (numbered 1 (selector_form problem.now)) entries.old.items first }
    ensures { IfOk result (λ next. AreEntries problem.now.vars set.now (all_known (selector_form problem.now) proof.now.steps) entries.new.items next) }
{
    let mut next = first;
    for at in 0..proof.len() {
        let step = proof.step(at);
        let stays = !is_settled(problem.vars(), set, step.lits);
        next = add(entries, step.id, stays, next)?;
    }
    Ok(next)
}

/// Adds an entry, with the next number where it stays. The answer is the number behind.
fn add(entries: &mut Vec<Entry>, id: u64, stays: bool, next: u64) -> Result<u64, AllocError>
    ensures { IfOk result (λ further. (vars : ℕ) (set : List ℕ) (known : List (ℕ × List ℤ)) (lits : List ℤ) → stays ≡ not (is_settled vars set lits) → AreEntries vars set known entries.old.items next → AreEntries vars set (known ++ (id, lits) ∷ []) entries.new.items further) }
{
    if !stays {
        entries.push(Entry { id, number: 0 })?;
        return Ok(next);
    }
    let Some(further) = next.checked_add(1) else {
        return Err(AllocError);
    };
    entries.push(Entry { id, number: next })?;
    Ok(further)
}

/// Whether the selectors make a clause true.
pub fn is_settled(vars: u32, set: &GroupTable<'_>, lits: &[Lit]) -> bool
    ensures { result ≡ is_settled vars set.now lits.now }
{
    for lit in lits {
        if is_true(vars, set, *lit) {
            return true;
        }
    }
    false
}

/// Whether it is a literal of a selector that is true.
fn is_true(vars: u32, set: &GroupTable<'_>, lit: Lit) -> bool
    ensures { result ≡ is_true vars set.now lit }
{
    let var = lit.var();
    if var <= vars {
        return false;
    }
    if lit.is_positive() {
        set.contains(var - vars)
    } else {
        !set.contains(var - vars)
    }
}

/// The place of the entry with this id.
pub fn find(entries: &[Entry], id: u64) -> Option<usize>
    requires { Ascend entries.now }
    ensures some { IfSome result (IsAt entries.now id) }
    ensures none { IfNone result (HasNoId entries.now id) }
{
    if id > 0 && id <= entries.len() as u64 {
        let place = (id - 1) as usize;
        if entries[place].id == id {
            return Some(place);
        }
    }
    by_halving(entries, id)
}

fn by_halving(entries: &[Entry], id: u64) -> Option<usize>
    requires { Ascend entries.now }
    ensures some { IfSome result (IsAt entries.now id) }
    ensures none { IfNone result (HasNoId entries.now id) }
{
    match entries.binary_search_by_key(&id, |entry| entry.id) {
        Ok(place) => Some(place),
        Err(_) => None,
    }
}
