//! Witnesses.
ghost use Rattle.std.specs.Prelude.{◌≡◌, ◌||◌, All, IfOk, length, List, Bool};
ghost use Rattle.sat_base.specs.Literals.{AreLiterals, clause_true};
ghost use Rattle.gm_base.specs.Sets.{IsGroupSet, has, complement};
ghost use Rattle.gm_base.specs.Problem.{satisfies};
ghost use Rattle.evidence_rec.specs.Refusals.{at_line, witness_refusal, witnesses_refusal};
ghost use Rattle.evidence_rec.specs.Verdicts.{refusal_by};

use crate::checking::Verdict;
use crate::columns::witnesses_hold;
use crate::lines::line_behind;
use crate::lists::Witnesses;
use gm_base::{Assign, Clause, GroupSet, Problem};
use lrat_check::Why;
use std::alloc::{AllocError, Global};

/// Whether an assignment, at this line, satisfies the background and the set.
pub fn witness_verdict(problem: &Problem, set: &GroupSet, witness: &Assign, part: u64) -> Verdict
    requires { length witness.now ≡ problem.now.vars }
    ensures { refusal_by result ≡ at_line part (witness_refusal problem.now set.now witness.now) }
{
    if problem.holds(set, witness) {
        Verdict::Ok
    } else {
        Verdict::Refused {
            part,
            why: Why::WitnessFails,
        }
    }
}

/// Whether an assignment, at this line, satisfies the background and all groups outside a correction.
///
/// These are most groups, so all clauses are walked over, and of one that is false its group is looked for in the correction.
pub fn outside_verdict(problem: &Problem, set: &GroupSet, witness: &Assign, part: u64) -> Verdict
    requires { length witness.now ≡ problem.now.vars }
    ensures { refusal_by result ≡ at_line part (witness_refusal problem.now (complement problem.now.groups set.now) witness.now) }
{
    if holds_outside(problem, set, witness) {
        Verdict::Ok
    } else {
        Verdict::Refused {
            part,
            why: Why::WitnessFails,
        }
    }
}

/// Whether each clause is true that is not of a group of the correction.
fn holds_outside(problem: &Problem, set: &GroupSet, witness: &Assign) -> bool
    requires { length witness.now ≡ problem.now.vars }
    ensures { result ≡ satisfies problem.now (complement problem.now.groups set.now) witness.now }
{
    // This also tells that the set ascends, so that the background is none of its groups.
    let _groups = set.as_slice();
    for at in 0..problem.len() {
        if !is_true_or_of(problem.clause(at), set, witness) {
            return false;
        }
    }
    true
}

/// Whether a clause is true, or of a group of the set.
fn is_true_or_of(clause: &Clause, set: &GroupSet, witness: &Assign) -> bool
    requires { AreLiterals (length witness.now) clause.now.lits }
    ensures { result ≡ (clause_true witness.now clause.now.lits || has set.now clause.now.group) }
{
    witness.makes_any_true(clause.lits.as_slice()) || set.contains(clause.group)
}

/// Whether the witnesses of a conflict, whose first line is `line`, satisfy what they have to, one for each group in order.
///
/// That all do is found for many of them at a time; which one is the first that doesn't, one by one.
pub fn witnesses_verdict(
    alloc: Global,
    problem: &Problem,
    set: &GroupSet,
    witnesses: &Witnesses,
    line: u64,
) -> Result<Verdict, AllocError>
    requires shaped { length witnesses.now ≡ length set.now }
    requires values { All (λ (w : List Bool). length w ≡ problem.now.vars) witnesses.now }
    ensures answer { IfOk result (λ v. refusal_by v ≡ witnesses_refusal problem.now set.now line set.now witnesses.now) }
    ensures is_set { IsGroupSet set.now }
{
    // This also tells that the set ascends.
    let _groups = set.as_slice();
    if witnesses_hold(alloc, problem, set, witnesses.as_slice())? {
        return Ok(Verdict::Ok);
    }
    walk_verdict(alloc, problem, set, witnesses, line)
}

/// The same, one by one.
fn walk_verdict(
    alloc: Global,
    problem: &Problem,
    set: &GroupSet,
    witnesses: &Witnesses,
    line: u64,
) -> Result<Verdict, AllocError>
    requires shaped { length witnesses.now ≡ length set.now }
    requires values { All (λ (w : List Bool). length w ≡ problem.now.vars) witnesses.now }
    ensures { IfOk result (λ v. refusal_by v ≡ witnesses_refusal problem.now set.now line set.now witnesses.now) }
{
    let groups = set.as_slice();
    for at in 0..groups.len() {
        let others = set.without(alloc, groups[at])?;
        let part = line_behind(line, at)?;
        let verdict = witness_verdict(problem, &others, witnesses.at(at), part);
        if !verdict.is_ok() {
            return Ok(verdict);
        }
    }
    Ok(Verdict::Ok)
}
