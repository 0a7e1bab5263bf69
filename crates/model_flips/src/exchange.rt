//! The one group of a set that an assignment leaves out is exchanged for another one.
//!
//! An assignment that satisfies the background and all groups of a set but one shows that this one is critical. Where the
//! flip of a variable makes it true, and another one of the set false in its place, that one is critical too. What becomes of
//! groups outside of the set is not asked. So a set of few groups among very many costs what the clauses of one variable
//! and of one group cost, however many groups the assignment leaves out.
//!
//! No clause tells what comes of it: who says that an assignment satisfies a set tests it ([`tested`](crate::tested)).
ghost use Rattle.std.specs.Prelude.{◌≡◌, ◌<◌, ◌≤◌, length};

use crate::rotation::Rotation;
use gm_base::{Assign, GroupSet, Problem};
use std::alloc::{AllocError, Global};

/// An assignment, and the one group of a set that it leaves out.
#[derive(Drop)]
pub struct Exchanged {
    pub group: u32,
    pub assign: Assign,
}

impl Rotation {
    /// Flips a variable of an assignment that satisfies the background and a set without this one of its groups. Where that
    /// satisfies the background and the set without one other group, it says which; else nothing. It costs a flip of the
    /// assignment, the clauses that have the variable, and those of the group.
    pub fn exchanged(
        &self,
        alloc: Global,
        problem: &Problem,
        set: &GroupSet,
        group: u32,
        assign: &Assign,
        var: u32,
    ) -> Result<Option<Exchanged>, AllocError>
        requires not_zero { 0 < var }
        requires in_range { var ≤ problem.now.vars }
        requires assign { length assign.now ≡ problem.now.vars }
    {
        let values = assign.flipped(alloc, var)?;
        let Some(other) = lone_lost(problem, set, self.of(var), &values) else {
            return Ok(None);
        };
        if !problem.group_holds(group, &values) {
            return Ok(None);
        }
        Ok(Some(Exchanged {
            group: other,
            assign: values,
        }))
    }
}

// The one group of the set that those of these clauses are of which are false; nothing where there are several, or where one
// is of the background.
fn lone_lost(problem: &Problem, set: &GroupSet, places: &[u32], values: &Assign) -> Option<u32>
    requires { length values.now ≡ problem.now.vars }
{
    let mut lost = None;
    for place in places {
        if let Some(group) = lost_at(problem, set, *place as usize, values) {
            if group == 0 || lost.unwrap_or(group) != group {
                return None;
            }
            lost = Some(group);
        }
    }
    lost
}

// The group of the clause at this place, where it is false and of the background or the set.
fn lost_at(problem: &Problem, set: &GroupSet, at: usize, values: &Assign) -> Option<u32>
    requires { length values.now ≡ problem.now.vars }
{
    if at >= problem.len() {
        return None;
    }
    let clause = problem.clause(at);
    let group = clause.group;
    if values.makes_any_true(clause.lits.as_slice()) || (group != 0 && !set.contains(group)) {
        return None;
    }
    Some(group)
}
