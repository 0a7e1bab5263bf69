//! The closing part.
//!
//! The block clauses of all records are given to a checker of steps, over the groups as variables. Where it takes all steps
//! and the goal names the empty clause, no set of groups is left that nothing explores.
ghost use Rattle.std.specs.Prelude.{◌≡◌, ◌+◌, ◌++◌, ◌∷◌, [], List, ℕ, ℤ, IfOk, OnOk, length, map};
ghost use Rattle.std.specs.Option.{option_or};
ghost use Rattle.std.specs.List.{AllByRecursion};
ghost use Rattle.gm_base.specs.Sets.{IsSubset, all_groups};
ghost use Rattle.gm_base.specs.Explored.{block_clause, block_of};
ghost use Rattle.sat_base.specs.Derivation.{numbered, all_known};
ghost use Rattle.evidence_rec.specs.Records.{found_of, founds, set_of, AllAccepted};
ghost use Rattle.evidence_rec.specs.Verdicts.{refusal_by};
ghost use Rattle.evidence_rec.specs.Refusals.{steps_refusal, at_line};
ghost use Rattle.gm_audit.specs.Refusals.{in_text, empty_refusal, closing_refusal};

use evidence_rec::{Record, Records, Verdict, block_lits, steps_verdict};
use evidence_text::Offence;
use gm_base::{Derivation, Kind, Problem, Side};
use lrat_check::{Checker, Why};
use std::alloc::{AllocError, Global};

/// Why a closing part is refused, whose first line is this one.
pub fn closing_offence(
    alloc: Global,
    problem: &Problem,
    records: &Records,
    line: u64,
    proof: &Derivation,
) -> Result<Option<Offence>, AllocError>
    requires { AllAccepted problem.now records.now }
    ensures { IfOk result (λ refusal. refusal ≡ in_text line (closing_refusal problem.now.groups (founds records.now) proof.now)) }
{
    let mut checker = block_checker(alloc, problem, records)?;
    let verdict = closing_verdict(&mut checker, proof)?;
    offence_of(line, verdict)
}

// Whether the steps of a closing part follow, and its goal names the empty clause.
fn closing_verdict(checker: &mut Checker, proof: &Derivation) -> Result<Verdict, AllocError>
    ensures { IfOk result (λ verdict. (blocks : List (List ℤ)) → checker.old.known ≡ numbered 1 blocks → refusal_by verdict ≡ option_or (steps_refusal checker.old.vars (numbered 1 blocks) 0 proof.now.steps) (at_line (length proof.now.steps) (empty_refusal (all_known blocks proof.now.steps) proof.now.goal))) }
{
    // This also tells that no clause is but the given ones.
    let _inputs = checker.inputs();
    let steps = steps_verdict(checker, proof, 0)?;
    if !steps.is_ok() {
        return Ok(steps);
    }
    let Some(why) = empty_refusal(checker, proof.goal()) else {
        return Ok(Verdict::Ok);
    };
    let part = proof.len() as u64;
    Ok(Verdict::Refused { part, why })
}

/// A verdict on lines that count from 0, of which the first is this line of the text.
pub fn offence_of(line: u64, verdict: Verdict) -> Result<Option<Offence>, AllocError>
    ensures { IfOk result (λ refusal. refusal ≡ in_text line (refusal_by verdict)) }
{
    let Verdict::Refused { part, why } = verdict else {
        return Ok(None);
    };
    let line = line.checked_add(part).ok_or(AllocError)?;
    Ok(Some(Offence { line, why }))
}

// Why a goal is refused: it has to name the empty clause.
fn empty_refusal(checker: &Checker, goal: u64) -> Option<Why>
    ensures { result ≡ empty_refusal checker.now.known goal }
{
    let Some(clause) = checker.clause(goal) else {
        return Some(Why::UnknownClause);
    };
    if clause.is_empty() {
        None
    } else {
        Some(Why::NotRefuting)
    }
}

// A checker of steps from the block clauses of the records.
fn block_checker(alloc: Global, problem: &Problem, records: &Records) -> Result<Checker, AllocError>
    requires { AllAccepted problem.now records.now }
    ensures vars { IfOk result (λ checker. checker.vars ≡ problem.now.groups) }
    ensures inputs { IfOk result (λ checker. checker.inputs ≡ length records.now) }
    ensures known { IfOk result (λ checker. checker.known ≡ numbered 1 (map block_clause (founds records.now))) }
{
    let mut checker = Checker::with_vars(alloc, problem.groups())?;
    for at in 0..records.len() {
        add_block(alloc, &mut checker, records.at(at))?;
    }
    Ok(checker)
}

// Gives the block clause of a record.
fn add_block(alloc: Global, checker: &mut Checker, found: &Record) -> Result<(), AllocError>
    requires within { IsSubset (set_of found.now) (all_groups checker.old.vars) }
    requires no_steps { length checker.old.known ≡ checker.old.inputs }
    ensures added { OnOk result (checker.new.known ≡ checker.old.known ++ (checker.old.inputs + 1, block_clause (found_of found.now)) ∷ []) }
    ensures inputs { OnOk result (checker.new.inputs ≡ checker.old.inputs + 1) }
    ensures vars { checker.new.vars ≡ checker.old.vars }
{
    // This also tells that its variables are few.
    let _vars = checker.vars();
    let side = side_of(found.kind());
    let lits = block_lits(alloc, found.set(), side)?;
    checker.add_input(lits.as_slice())
}

// The side to which a set of this kind blocks.
fn side_of(kind: Kind) -> Side
    ensures { (set : List ℕ) → block_of result set ≡ record { kind = kind; set = set } }
{
    match kind {
        Kind::Conflict => Side::Up,
        Kind::Correction => Side::Down,
    }
}
