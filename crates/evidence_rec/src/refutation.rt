//! Refutations.
//!
//! The lines of a derivation are its steps, and then its goal. The steps are given to the checker in order, and the first
//! one that it refuses is the answer; where all are taken, the goal has to name a clause of the right literals. In place of
//! a derivation a correction may name an earlier conflict: more groups keep unsatisfiability, so it suffices that the
//! conflict's groups are among those that have to be refuted.
ghost use Rattle.std.specs.Prelude.{◌≡◌, ◌+◌, ◌++◌, ◌≤◌, IfOk, None, length, map, option_copied};
ghost use Rattle.evidence_rec.specs.Records.{numbered_record};
ghost use Rattle.gm_base.specs.Sets.{IsGroupSet};
ghost use Rattle.sat_base.specs.Derivation.{Step};
ghost use Rattle.evidence_rec.specs.Basis.{Begins, basis_of, given_to, refuted_set};
ghost use Rattle.evidence_rec.specs.Refusals.{steps_refusal, goal_refusal, refutation_refusal, reference_refusal, group_refusal, refutations_refusal};
ghost use Rattle.evidence_rec.specs.Verdicts.{refusal_by};

use crate::checking::Verdict;
use crate::lines::line_behind;
use crate::lists::{Proofs, Records};
use crate::record::{Record, Refutation};
use crate::selectors::are_left_out;
use gm_base::{Derivation, GroupSet, Problem};
use lrat_check::{Checked, Checker, Why};
use std::alloc::AllocError;

/// Whether a proof, whose first line is `line`, refutes what it has to: the set of a conflict, or with `own` the groups
/// outside a correction and that group of it.
pub fn refutation_verdict(
    checker: &mut Checker,
    problem: &Problem,
    set: &GroupSet,
    own: Option<u32>,
    proof: &Derivation,
    line: u64,
) -> Result<Verdict, AllocError>
    requires { Begins (basis_of problem.now) checker.old }
    ensures answer { IfOk result (λ v. refusal_by v ≡ refutation_refusal problem.now (refuted_set problem.now.groups set.now own) line proof.now) }
    ensures begins { Begins (basis_of problem.now) checker.new }
{
    checker.back_to_inputs();
    let steps = steps_verdict(checker, proof, line)?;
    if !steps.is_ok() {
        return Ok(steps);
    }
    let part = line_behind(line, proof.len())?;
    let why = goal_refusal(checker, problem, set, own, proof.goal());
    Ok(Verdict::at(part, why))
}

/// Gives the steps of a proof, whose first line is `line`, to the checker, up to the first that it refuses.
pub fn steps_verdict(
    checker: &mut Checker,
    proof: &Derivation,
    line: u64,
) -> Result<Verdict, AllocError>
    requires within { checker.old.inputs ≤ length checker.old.known }
    ensures answer { IfOk result (λ v. refusal_by v ≡ steps_refusal checker.old.vars checker.old.known line proof.now.steps) }
    ensures known { IfOk result (λ v. refusal_by v ≡ None → checker.new.known ≡ checker.old.known ++ map (λ (s : Step). (s.id, s.lits)) proof.now.steps) }
    ensures begins { Begins (given_to checker.old) checker.new }
{
    for at in 0..proof.len() {
        let step = proof.step(at);
        let part = line_behind(line, at)?;
        match checker.step(step.id, step.lits, step.hints)? {
            Checked::Ok => {}
            Checked::Refused(why) => return Ok(Verdict::Refused { part, why }),
        }
    }
    Ok(Verdict::Ok)
}

fn goal_refusal(
    checker: &Checker,
    problem: &Problem,
    set: &GroupSet,
    own: Option<u32>,
    goal: u64,
) -> Option<Why>
    ensures { result ≡ goal_refusal problem.now (refuted_set problem.now.groups set.now own) checker.now.known goal }
{
    let Some(clause) = checker.clause(goal) else {
        return Some(Why::UnknownClause);
    };
    if are_left_out(problem, set, own, clause) {
        None
    } else {
        Some(Why::NotRefuting)
    }
}

/// Whether the number is that of an earlier conflict that the groups outside a correction and this one of it hold.
fn reference_refusal(earlier: &Records, set: &GroupSet, group: u32, number: u64) -> Option<Why>
    ensures { result ≡ reference_refusal earlier.now set.now group number }
{
    let Some(record) = numbered_record(earlier, number) else {
        return Some(Why::UnknownRecord);
    };
    if record.is_inside(set, group) {
        None
    } else {
        Some(Why::NotInside)
    }
}

/// The record of this number, from 1.
fn numbered_record(earlier: &Records, number: u64) -> Option<&Record>
    ensures { option_copied result ≡ numbered_record earlier.now number }
{
    if number == 0 || number > earlier.len() as u64 {
        return None;
    }
    Some(earlier.at((number - 1) as usize))
}

/// Whether a refutation, whose first line is `line`, refutes the groups outside a correction with this one of it.
fn group_verdict(
    checker: &mut Checker,
    problem: &Problem,
    earlier: &Records,
    set: &GroupSet,
    group: u32,
    refutation: &Refutation,
    line: u64,
) -> Result<Verdict, AllocError>
    requires { Begins (basis_of problem.now) checker.old }
    ensures answer { IfOk result (λ v. refusal_by v ≡ group_refusal problem.now earlier.now set.now group line refutation.now) }
    ensures begins { Begins (basis_of problem.now) checker.new }
{
    match refutation {
        Refutation::Steps(proof) => {
            refutation_verdict(checker, problem, set, Some(group), proof, line)
        }
        Refutation::Earlier(number) => {
            let why = reference_refusal(earlier, set, group, *number);
            Ok(Verdict::at(line, why))
        }
    }
}

/// Whether the refutations of a correction, whose first line is `first`, refute what they have to, one for each group in
/// order.
pub fn refutations_verdict(
    checker: &mut Checker,
    problem: &Problem,
    earlier: &Records,
    set: &GroupSet,
    proofs: &Proofs,
    first: u64,
) -> Result<Verdict, AllocError>
    requires begins { Begins (basis_of problem.now) checker.old }
    requires shaped { length proofs.now ≡ length set.now }
    ensures answer { IfOk result (λ v. refusal_by v ≡ refutations_refusal problem.now earlier.now set.now first set.now proofs.now) }
    ensures is_set { IsGroupSet set.now }
    ensures begins { Begins (basis_of problem.now) checker.new }
{
    let groups = set.as_slice();
    let mut line = first;
    for at in 0..groups.len() {
        let refutation = proofs.at(at);
        let verdict = group_verdict(checker, problem, earlier, set, groups[at], refutation, line)?;
        if !verdict.is_ok() {
            return Ok(verdict);
        }
        line = line_behind(line_behind(line, refutation.len())?, 1)?;
    }
    Ok(Verdict::Ok)
}
