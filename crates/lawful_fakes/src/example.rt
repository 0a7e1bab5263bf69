//! One small problem, written by hand: x, not x, x implies y, and not y, in groups 1 to 4.
//!
//! Its minimal conflicts are {1, 2} and {1, 3, 4}, its minimal corrections {1}, {2, 3} and {2, 4}. The selectors of the
//! groups are the variables 3 to 6.
ghost use Rattle.std.specs.Prelude.{◌≡◌, ◌≤◌, ◌++◌, ◌∷◌, [], All, IsTrue, IfOk, OnOk};
ghost use Rattle.sat_base.specs.Derivation.{max_id};
ghost use Rattle.gm_base.specs.Sets.{IsSubset, all_groups};
ghost use Rattle.lrat_steps.specs.Log.{learned_count};
ghost use Rattle.evidence_rec.specs.Records.{IsAcceptedAlone};
ghost use Rattle.evidence_rec.specs.Asking.{IsHonestOver};

use crate::evidence::{Lacking, checked};
use crate::table_oracle::TableOracle;
use evidence_rec::{Proofs, Record, Refutation, Witnesses};
use gm_base::{
    Assign, AssignBuilder, Clause, Clauses, Derivation, DerivationBuilder, GroupSet, Lit, Lits,
    Problem,
};
use std::alloc::{AllocError, Global};

/// The problem.
pub fn four_clauses(alloc: Global) -> Result<Problem, AllocError>
    ensures vars { IfOk result (λ p. p.vars ≡ 2) }
    ensures groups { IfOk result (λ p. p.groups ≡ 4) }
{
    let x = Lit::new(1);
    let y = Lit::new(2);
    let mut clauses = Clauses::new(alloc);
    add(alloc, &mut clauses, 1, &[x])?;
    add(alloc, &mut clauses, 2, &[x.negated()])?;
    add(alloc, &mut clauses, 3, &[x.negated(), y])?;
    add(alloc, &mut clauses, 4, &[y.negated()])?;
    Problem::new(alloc, 2, 4, clauses)
}

// Adds a clause at the end.
fn add(alloc: Global, clauses: &mut Clauses, group: u32, lits: &[Lit]) -> Result<(), AllocError>
    ensures { OnOk result (clauses.new ≡ clauses.old ++ record { group = group; lits = lits.now } ∷ []) }
{
    let lits = Lits::from_slice(alloc, lits)?;
    clauses.push(Clause { group, lits })
}

/// The set of these groups, where there are so many.
pub fn set_of(alloc: Global, groups: u32, wanted: &[u32]) -> Result<GroupSet, Lacking>
    ensures { IfOk result (λ set. IsSubset set (all_groups groups)) }
{
    let mut set = GroupSet::new(alloc);
    for g in wanted {
        if *g > 0 {
            set = set.with(alloc, *g)?;
        }
    }
    let all = GroupSet::new(alloc).complement(alloc, groups)?;
    if set.is_subset(&all) {
        Ok(set)
    } else {
        Err(Lacking::Evidence)
    }
}

// Values of x and of y.
fn pair(alloc: Global, values: (bool, bool)) -> Result<Assign, AllocError> {
    let mut builder = AssignBuilder::all_false(alloc, 2)?;
    builder.set(1, values.0);
    builder.set(2, values.1);
    builder.finish(alloc)
}

/// Assignments of x and y, in this order.
pub fn assignments(alloc: Global, pairs: &[(bool, bool)]) -> Result<Witnesses, AllocError> {
    let mut witnesses = Witnesses::new(alloc);
    for values in pairs {
        witnesses.push(pair(alloc, *values)?)?;
    }
    Ok(witnesses)
}

// Whether all of these can be ids.
fn are_ids(numbers: &[u64]) -> bool
    ensures { IsTrue result → All (λ n. n ≤ max_id) numbers.now }
{
    for number in numbers {
        if *number > 9_223_372_036_854_775_807 {
            return false;
        }
    }
    true
}

// The literals of these numbers.
fn literals(alloc: Global, numbers: &[i32]) -> Result<Lits, AllocError> {
    let mut lits = Lits::new(alloc);
    for number in numbers {
        if *number != 0 && *number > i32::MIN {
            lits.push(Lit::new(*number))?;
        }
    }
    Ok(lits)
}

/// A derivation of one step, which is its goal.
pub fn derivation(
    alloc: Global,
    id: u64,
    numbers: &[i32],
    hints: &[u64],
) -> Result<Derivation, Lacking> {
    if id > 9_223_372_036_854_775_807 || !are_ids(hints) {
        return Err(Lacking::Evidence);
    }
    let lits = literals(alloc, numbers)?;
    let mut builder = DerivationBuilder::new(alloc, id);
    builder.push(id, lits.as_slice(), hints)?;
    Ok(builder.finish(alloc)?)
}

// Groups 1 and 2 clash, or groups 1, 3 and 4 do.
fn refutation(alloc: Global, of_two: bool) -> Result<Derivation, Lacking> {
    if of_two {
        derivation(alloc, 5, &[-3, -4], &[1, 2])
    } else {
        derivation(alloc, 5, &[-3, -5, -6], &[1, 3, 4])
    }
}

// So many refutations: the first one is that of two groups.
fn refutations(alloc: Global, count: usize) -> Result<Proofs, Lacking> {
    let mut proofs = Proofs::new(alloc);
    for at in 0..count {
        proofs.push(Refutation::Steps(refutation(alloc, at == 0)?))?;
    }
    Ok(proofs)
}

/// The conflict of the first two groups, or that of the three others.
pub fn conflict(alloc: Global, problem: &Problem, of_two: bool) -> Result<Record, Lacking>
    ensures { IfOk result (IsAcceptedAlone problem.now) }
{
    let groups: &[u32] = if of_two { &[1, 2] } else { &[1, 3, 4] };
    let pairs: &[(bool, bool)] = if of_two {
        &[(false, false), (true, false)]
    } else {
        &[(false, false), (true, false), (true, true)]
    };
    let record = Record::Conflict {
        set: set_of(alloc, problem.groups(), groups)?,
        proof: refutation(alloc, of_two)?,
        witnesses: assignments(alloc, pairs)?,
    };
    checked(alloc, problem, record)
}

/// The correction {1}, {2, 3} or {2, 4}, where these values satisfy the other groups.
pub fn correction(
    alloc: Global,
    problem: &Problem,
    groups: &[u32],
    values: (bool, bool),
) -> Result<Record, Lacking>
    ensures { IfOk result (IsAcceptedAlone problem.now) }
{
    let record = Record::Correction {
        set: set_of(alloc, problem.groups(), groups)?,
        witness: pair(alloc, values)?,
        proofs: refutations(alloc, groups.len())?,
    };
    checked(alloc, problem, record)
}

/// An oracle of the problem that knows these assignments and both conflicts. With `whole` it answers with the set itself,
/// where it could name the conflict within it.
pub fn table_of(
    alloc: Global,
    problem: &Problem,
    pairs: &[(bool, bool)],
    whole: bool,
) -> Result<TableOracle, Lacking>
    ensures problem { IfOk result (λ oracle. oracle.problem ≡ problem.now) }
    ensures honest { IfOk result (λ oracle. IsHonestOver problem.now oracle.log) }
    ensures nothing { IfOk result (λ oracle. learned_count oracle.log ≡ 0) }
{
    let mut oracle = TableOracle::new(alloc, problem, assignments(alloc, pairs)?, whole)?;
    tell_both(alloc, problem, &mut oracle)?;
    Ok(oracle)
}

fn tell_both(alloc: Global, problem: &Problem, oracle: &mut TableOracle) -> Result<(), Lacking>
    requires { oracle.old.problem ≡ problem.now }
    ensures { oracle.new ≡ oracle.old }
{
    tell(alloc, problem, oracle, true)?;
    tell(alloc, problem, oracle, false)
}

// Tells an oracle of the problem the conflict of the first two groups, or that of the three others.
fn tell(
    alloc: Global,
    problem: &Problem,
    oracle: &mut TableOracle,
    of_two: bool,
) -> Result<(), Lacking>
    requires { oracle.old.problem ≡ problem.now }
    ensures { oracle.new ≡ oracle.old }
{
    let known = conflict(alloc, problem, of_two)?;
    Ok(oracle.learn(known)?)
}
