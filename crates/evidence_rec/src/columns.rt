//! Witnesses by columns.
//!
//! A conflict has as many witnesses as groups, and each has to satisfy the clauses of all groups but one. One by one, each
//! clause would be fetched for each of them. So 64 are looked at together: the column of a variable is a word whose bit k
//! is its value under witness k, the column of a literal is that word or its complement, and that of a clause is the union
//! of its literals'. Each clause is then fetched once for 64 witnesses, and so is each word of a witness for 64 columns.
ghost use Rattle.std.specs.Prelude.{◌≡◌, ℕ, ◌+◌, ◌*◌, ◌≤◌, ◌<◌, ◌≢◌, ◌^◌, ◌/◌, ◌%◌, All, IsTrue, IfOk, OnOk, List, [], Bool, true, not, length, slice_index_or};
ghost use Rattle.sat_base.specs.Literals.{AreLiterals, var_of, literal_true, clause_true};
ghost use Rattle.gm_base.specs.Index.{group_true};
ghost use Rattle.evidence_rec.specs.Columns.{is_set, AreWords, AreColumns, Tells, Shows, ShowsOthers, IsWitnessAt};

use gm_base::{Assign, GroupSet, Lit, Problem};
use std::alloc::{AllocError, Global};

/// How many witnesses have a bit in a word.
const WIDTH: usize = 64;

/// The values of 64 variables under each assignment, as the bits of a word: those of the block that this variable, counted
/// from 0, is in. They are read where the block begins.
fn read_block(words: &mut Vec<u64>, assigns: &[Assign], at: usize) -> Result<(), AllocError>
    requires values { All (λ (w : List Bool). at < length w) assigns.now }
    requires begun { at % 64 ≢ 0 → AreWords assigns.now (at / 64) words.old.items }
    ensures { OnOk result (AreWords assigns.now (at / 64) words.new.items) }
{
    if at % 64 != 0 {
        return Ok(());
    }
    words.clear();
    for assign in assigns {
        words.push(assign.word(at / 64))?;
    }
    Ok(())
}

/// The column of the variable that has this bit of each word.
fn column_of(words: &[u64], bit: usize) -> u64
    requires few { length words.now ≤ 64 }
    requires within { bit < 64 }
    ensures { (k : ℕ) → k < length words.now → is_set result k ≡ is_set (slice_index_or words.now k 0) bit }
{
    let mut column = 0;
    for at in 0..words.len() {
        if has_bit(words[at], bit) {
            column |= 1 << at;
        }
    }
    column
}

/// Whether this bit is set.
fn has_bit(word: u64, bit: usize) -> bool
    requires { bit < 64 }
    ensures { result ≡ is_set word bit }
{
    (word >> bit) & 1 == 1
}

/// The columns of so many variables.
fn columns_of(alloc: Global, vars: u32, assigns: &[Assign]) -> Result<Vec<u64>, AllocError>
    requires few { length assigns.now ≤ 64 }
    requires values { All (λ (w : List Bool). length w ≡ vars) assigns.now }
    ensures len { IfOk result (λ columns. length columns.items ≡ vars) }
    ensures columns { IfOk result (λ columns. AreColumns assigns.now columns.items) }
{
    let mut columns = Vec::with_capacity(alloc, vars as usize)?;
    let mut words = Vec::with_capacity(alloc, WIDTH)?;
    for at in 0..vars as usize {
        read_block(&mut words, assigns, at)?;
        columns.push(column_of(words.as_slice(), at % 64))?;
    }
    Ok(columns)
}

/// The column of the negation.
fn negated(column: u64) -> u64
    ensures { (k : ℕ) → k < 64 → is_set result k ≡ not (is_set column k) }
{
    !column
}

/// The column of a literal.
fn literal_column(columns: &[u64], lit: Lit) -> u64
    requires { var_of lit ≤ length columns.now }
    ensures { Tells columns.now (λ w. literal_true w lit) result }
{
    let column = columns[(lit.var() - 1) as usize];
    if lit.is_positive() {
        column
    } else {
        negated(column)
    }
}

/// The column of a clause.
fn clause_column(columns: &[u64], lits: &[Lit]) -> u64
    requires { AreLiterals (length columns.now) lits.now }
    ensures { Tells columns.now (λ w. clause_true w lits.now) result }
{
    let mut column = 0;
    for lit in lits {
        column |= literal_column(columns, *lit);
    }
    column
}

/// Which assignments satisfy a group.
fn group_column(problem: &Problem, columns: &[u64], group: u32) -> u64
    requires { length columns.now ≡ problem.now.vars }
    ensures { Shows columns.now (λ w. group_true problem.now.clauses w group) result }
{
    let mut column = u64::MAX;
    for placed in problem.places(group) {
        let clause = problem.clause(placed.at as usize);
        column &= clause_column(columns, clause.lits.as_slice());
    }
    column
}

/// The column with the bit of the witness at this place set, where it is among those from `from` on.
fn with_own(column: u64, from: usize, at: usize) -> u64
    ensures { (k : ℕ) → k < 64 → from + k ≢ at → is_set result k ≡ is_set column k }
{
    if from <= at && at - from < WIDTH {
        column | 1 << (at - from)
    } else {
        column
    }
}

/// Which assignments satisfy the background and all groups but their own, of which the first stands at `from`.
fn others_column(problem: &Problem, columns: &[u64], groups: &[u32], from: usize) -> u64
    requires { length columns.now ≡ problem.now.vars }
    ensures { ShowsOthers problem.now groups.now from columns.now result }
{
    let mut column = group_column(problem, columns, 0);
    for at in 0..groups.len() {
        column &= with_own(group_column(problem, columns, groups[at]), from, at);
    }
    column
}

/// Whether the first bits are set, so many.
fn are_set(column: u64, count: usize) -> bool
    requires { count ≤ 64 }
    ensures { IsTrue result → (k : ℕ) → k < count → is_set column k ≡ true }
{
    for at in 0..count {
        if (column >> at) & 1 != 1 {
            return false;
        }
    }
    true
}

/// Whether the witnesses from one place up to another satisfy what they have to.
fn part_holds(
    alloc: Global,
    problem: &Problem,
    set: &GroupSet,
    witnesses: &[Assign],
    from: usize,
) -> Result<bool, AllocError>
    requires shaped { length witnesses.now ≡ length set.now }
    requires in_range { from ≤ length witnesses.now }
    requires values { All (λ (w : List Bool). length w ≡ problem.now.vars) witnesses.now }
    ensures { IfOk result (λ holds. IsTrue holds → (at : ℕ) → at < 64 → from + at < length set.now → IsWitnessAt problem.now set.now witnesses.now (from + at)) }
{
    let part = &witnesses[from..witnesses.len().min(from + WIDTH)];
    let columns = columns_of(alloc, problem.vars(), part)?;
    let column = others_column(problem, columns.as_slice(), set.as_slice(), from);
    Ok(are_set(column, part.len()))
}

/// Whether each witness of a conflict satisfies what it has to, where all of them do.
pub fn witnesses_hold(
    alloc: Global,
    problem: &Problem,
    set: &GroupSet,
    witnesses: &[Assign],
) -> Result<bool, AllocError>
    requires shaped { length witnesses.now ≡ length set.now }
    requires values { All (λ (w : List Bool). length w ≡ problem.now.vars) witnesses.now }
    ensures { IfOk result (λ hold. IsTrue hold → (at : ℕ) → at < length set.now → IsWitnessAt problem.now set.now witnesses.now at) }
{
    for part in 0..witnesses.len().div_ceil(WIDTH) {
        if !part_holds(alloc, problem, set, witnesses, part * WIDTH)? {
            return Ok(false);
        }
    }
    Ok(true)
}
