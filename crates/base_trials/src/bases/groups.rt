//! Sets of groups, and problems.
use gm_base::{Assign, Clause, CompactSet, GroupSet, Problem};
use std::alloc::{AllocError, Global};
use std::cmp::Ordering;
use trial_bases::{problem_of, push_clause, set_from};
use trial_script::{Step, known, show};

/// The set, and another one.
#[derive(Drop)]
pub struct SetPair {
    set: GroupSet,
    other: GroupSet,
}

impl SetPair {
    pub fn new(alloc: Global) -> SetPair {
        SetPair {
            set: GroupSet::new(alloc),
            other: GroupSet::new(alloc),
        }
    }
}

/// Makes a call of sets.
pub fn call_sets(
    sets: &mut SetPair,
    alloc: Global,
    step: &Step<'_>,
    out: &mut String,
) -> Result<bool, AllocError> {
    match step.word(0) {
        "groups" => put_set(&mut sets.set, set_from(alloc, step, 1), out),
        "other" => put_set(&mut sets.other, set_from(alloc, step, 1), out),
        "without" | "complement" | "copy" | "compact" => {
            put_set(&mut sets.other, made_of(&sets.set, alloc, step), out)
        }
        "contains" => show_contains(&sets.set, step.count(1), out),
        "subset" => show_both(
            sets.other.is_subset(&sets.set),
            sets.set.is_subset(&sets.other),
            out,
        ),
        "compare" => show(name_of(sets.set.cmp(&sets.other)), out),
        _ => Ok(false),
    }
}

/// Puts a set in place of another and tells it, if there is one.
fn put_set(
    place: &mut GroupSet,
    set: Result<Option<GroupSet>, AllocError>,
    out: &mut String,
) -> Result<bool, AllocError> {
    match set? {
        Some(set) => {
            *place = set;
            show_set(place, out)
        }
        None => Ok(false),
    }
}

fn show_set(set: &GroupSet, out: &mut String) -> Result<bool, AllocError> {
    out.push_str("{")?;
    for group in set.as_slice() {
        write!(out, " {group}")?;
    }
    show(" }", out)
}

fn show_both(first: bool, second: bool, out: &mut String) -> Result<bool, AllocError> {
    known(writeln!(out, "{first} {second}"))
}

/// What the call makes of the set.
fn made_of(set: &GroupSet, alloc: Global, step: &Step<'_>) -> Result<Option<GroupSet>, AllocError> {
    if step.word(0) == "copy" {
        return Ok(Some(set.copy(alloc)?));
    }
    if step.word(0) == "compact" {
        let compact = CompactSet::of(alloc, set)?;
        return Ok(Some(compact.to_set(alloc)?));
    }
    let Some(number) = step.count(1) else {
        return Ok(None);
    };
    if step.word(0) == "without" {
        return Ok(Some(set.without(alloc, number)?));
    }
    Ok(Some(set.complement(alloc, number)?))
}

fn show_contains(set: &GroupSet, group: Option<u32>, out: &mut String) -> Result<bool, AllocError> {
    match group {
        Some(group) => show(if set.contains(group) { "true" } else { "false" }, out),
        None => Ok(false),
    }
}

fn name_of(order: Ordering) -> &'static str {
    match order {
        Ordering::Less => "less",
        Ordering::Equal => "equal",
        Ordering::Greater => "greater",
    }
}

/// The problem of the call's text and a copy of it, if it is one.
pub fn problem_pair(
    alloc: Global,
    step: &Step<'_>,
) -> Result<Option<(Problem, Problem)>, AllocError> {
    let Some(problem) = problem_of(alloc, step.text())? else {
        return Ok(None);
    };
    let copy = problem.copy()?;
    Ok(Some((problem, copy)))
}

/// Tells whether the assignment satisfies the call's groups of the problem, and those of the copy.
pub fn show_holds(
    problem: &Problem,
    copy: &Problem,
    assign: &Assign,
    alloc: Global,
    step: &Step<'_>,
    out: &mut String,
) -> Result<bool, AllocError> {
    let Some(set) = set_from(alloc, step, 1)? else {
        return Ok(false);
    };
    let len = assign.len();
    if len != problem.vars() as usize || len != copy.vars() as usize {
        return Ok(false);
    }
    show_both(problem.holds(&set, assign), copy.holds(&set, assign), out)
}

/// Tells each clause, and how many its group has.
pub fn show_clauses(problem: &Problem, out: &mut String) -> Result<bool, AllocError> {
    for at in 0..problem.len() {
        show_clause(problem, problem.clause(at), out)?;
    }
    Ok(true)
}

fn show_clause(problem: &Problem, clause: &Clause, out: &mut String) -> Result<(), AllocError> {
    push_clause(clause, out)?;
    let count = problem.places(clause.group).len();
    writeln!(out, ", {count} of its group")
}
