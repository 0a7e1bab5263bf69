//! Turns of assignments.
//!
//! An assignment that leaves out one group alone of the set that is shrunk shows that the group is critical. Each variable
//! whose flip may make that group true is tried; where the flip leaves out one other group of the set alone, and no
//! assignment is known that shows that one critical, what comes of it is remembered, and turned in its turn (model
//! rotation, Marques-Silva and Lynce 2011).
ghost use Rattle.std.specs.Prelude.{◌≡◌, ◌<◌, ◌≤◌, All, IfOk, IfSome, length};
ghost use Rattle.model_flips.specs.Rotation.{IsListing, Satisfies};
ghost use Rattle.known_sets.specs.Entries.{IsSatisfied};

use crate::arena::set_of;
use crate::index::Wanted;
use crate::model_maker::LOOKS_A_QUESTION;
use crate::satisfied::SatisfiedSets;
use gm_base::{Assign, GroupSet, Problem};
use model_flips::{Rotation, Turned};
use std::alloc::{AllocError, Global};

/// An assignment that leaves out more groups than that is not turned.
pub const MOST_LEFT_OUT: usize = 64;

/// Turns the assignments from this number on, with those that come of it, until so much was looked at for nothing: what
/// shows a group critical saves a question.
pub fn turn_all(
    alloc: Global,
    rotation: &Rotation,
    problem: &Problem,
    shrinking: &[bool],
    satisfied: &mut SatisfiedSets,
    first: usize,
    looks: &mut u64,
    most: u64,
) -> Result<(), AllocError>
    ensures { IsListing problem.now.clauses rotation.now → All (IsSatisfied problem.now) satisfied.old → All (IsSatisfied problem.now) satisfied.new }
{
    // Each turn shows one more group of the set critical.
    for turn in 0..shrinking.len() {
        let number = first.saturating_add(turn);
        if number >= satisfied.len() || *looks > most {
            return Ok(());
        }
        turn_one(
            alloc, rotation, problem, shrinking, satisfied, number, looks,
        )?;
    }
    Ok(())
}

// Turns the assignment of this number.
fn turn_one(
    alloc: Global,
    rotation: &Rotation,
    problem: &Problem,
    shrinking: &[bool],
    satisfied: &mut SatisfiedSets,
    number: usize,
    looks: &mut u64,
) -> Result<(), AllocError>
    ensures { IsListing problem.now.clauses rotation.now → All (IsSatisfied problem.now) satisfied.old → All (IsSatisfied problem.now) satisfied.new }
{
    let Some(lent) = satisfied.get(number) else {
        return Ok(());
    };
    let Some(group) = lone(shrinking, lent.set) else {
        return Ok(());
    };
    let Some(out) = set_of(alloc, lent.set) else {
        return Ok(());
    };
    let assign = lent.evidence.copy()?;
    turn_by_each(
        alloc, rotation, problem, shrinking, satisfied, &out, &assign, group, looks,
    )
}

// Flips each variable that may make the group true. Where something comes of it that leaves out one group alone, a question
// is saved, and what that costs at least is not counted.
fn turn_by_each(
    alloc: Global,
    rotation: &Rotation,
    problem: &Problem,
    shrinking: &[bool],
    satisfied: &mut SatisfiedSets,
    out: &GroupSet,
    assign: &Assign,
    group: u32,
    looks: &mut u64,
) -> Result<(), AllocError>
    ensures { IsListing problem.now.clauses rotation.now → Satisfies problem.now out.now assign.now → All (IsSatisfied problem.now) satisfied.old → All (IsSatisfied problem.now) satisfied.new }
{
    let vars = problem.vars();
    if assign.len() != vars as usize {
        return Ok(());
    }
    let before = *looks;
    let mut found = false;
    for var in rotation.candidates(alloc, problem, assign, group)? {
        if var > 0 && var <= vars {
            *looks = looks.saturating_add(rotation.cost(var));
            let more = turn_by(
                alloc, rotation, problem, shrinking, satisfied, out, assign, var, looks,
            )?;
            found = found || more;
        }
    }
    if found {
        *looks = looks.saturating_sub(LOOKS_A_QUESTION).max(before);
    }
    Ok(())
}

// Flips one variable, and remembers what comes of it where that shows one more group critical. It tells whether that leaves
// out no other group.
fn turn_by(
    alloc: Global,
    rotation: &Rotation,
    problem: &Problem,
    shrinking: &[bool],
    satisfied: &mut SatisfiedSets,
    out: &GroupSet,
    assign: &Assign,
    var: u32,
    looks: &mut u64,
) -> Result<bool, AllocError>
    requires not_zero { 0 < var }
    requires in_range { var ≤ problem.now.vars }
    requires assign { length assign.now ≡ problem.now.vars }
    ensures { IsListing problem.now.clauses rotation.now → Satisfies problem.now out.now assign.now → All (IsSatisfied problem.now) satisfied.old → All (IsSatisfied problem.now) satisfied.new }
{
    let Some(turned) = rotation.turned(alloc, problem, out, assign, var)? else {
        return Ok(false);
    };
    let Some(group) = newly_shown(shrinking, satisfied, turned.out.as_slice()) else {
        return Ok(false);
    };
    let tidy = tidied(alloc, rotation, problem, turned, group, looks)?;
    let alone = is_alone(tidy.out.as_slice(), group);
    let Turned {
        out: left,
        assign: flipped,
    } = tidy;
    satisfied.insert(&left, flipped)?;
    Ok(alone)
}

// The group that is shown critical by an assignment that leaves these out, where none that is known shows that.
fn newly_shown(shrinking: &[bool], satisfied: &mut SatisfiedSets, out: &[u32]) -> Option<u32>
    ensures { satisfied.new ≡ satisfied.old }
{
    let group = lone(shrinking, out)?;
    let wanted = Wanted {
        marks: shrinking,
        mark: false,
        but: group,
    };
    match satisfied.find(wanted) {
        Some(_) => None,
        None => Some(group),
    }
}

// Where an assignment leaves out one other group besides this one, tries to make that true by the flip of one variable.
fn tidied(
    alloc: Global,
    rotation: &Rotation,
    problem: &Problem,
    turned: Turned,
    group: u32,
    looks: &mut u64,
) -> Result<Turned, AllocError>
    ensures { IfOk result (λ tidy. IsListing problem.now.clauses rotation.now → Satisfies problem.now turned.out turned.assign → Satisfies problem.now tidy.out tidy.assign) }
{
    let vars = problem.vars();
    if turned.assign.len() != vars as usize {
        return Ok(turned);
    }
    let Some(other) = second_of(turned.out.as_slice(), group) else {
        return Ok(turned);
    };
    match left_alone(alloc, rotation, problem, &turned, other, group, looks)? {
        Some(tidy) => Ok(tidy),
        None => Ok(turned),
    }
}

// Flips each variable that may make the other group true, until one leaves out this group alone.
fn left_alone(
    alloc: Global,
    rotation: &Rotation,
    problem: &Problem,
    turned: &Turned,
    other: u32,
    group: u32,
    looks: &mut u64,
) -> Result<Option<Turned>, AllocError>
    requires { length turned.now.assign ≡ problem.now.vars }
    ensures { IfOk result (λ found. IfSome found (λ tidy. IsListing problem.now.clauses rotation.now → Satisfies problem.now turned.now.out turned.now.assign → Satisfies problem.now tidy.out tidy.assign)) }
{
    for var in rotation.candidates(alloc, problem, &turned.assign, other)? {
        if var > 0 && var <= problem.vars() {
            *looks = looks.saturating_add(rotation.cost(var));
            let more = rotation.turned(alloc, problem, &turned.out, &turned.assign, var)?;
            if let Some(tidy) = more {
                if is_alone(tidy.out.as_slice(), group) {
                    return Ok(Some(tidy));
                }
            }
        }
    }
    Ok(None)
}

// Whether these groups are this one alone.
fn is_alone(groups: &[u32], group: u32) -> bool {
    groups.len() == 1 && groups[0] == group
}

// The other one of two groups.
fn second_of(groups: &[u32], group: u32) -> Option<u32> {
    if groups.len() != 2 {
        return None;
    }
    if groups[0] == group {
        Some(groups[1])
    } else {
        Some(groups[0])
    }
}

// The one group of these that is marked, where they are few.
fn lone(marks: &[bool], groups: &[u32]) -> Option<u32> {
    if groups.len() > MOST_LEFT_OUT {
        return None;
    }
    let mut found = None;
    for group in groups {
        if marks.get(*group as usize) == Some(&true) {
            if found.is_some() {
                return None;
            }
            found = Some(*group);
        }
    }
    found
}
