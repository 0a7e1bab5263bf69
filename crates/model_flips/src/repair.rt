//! Repair of assignments.
//!
//! An assignment that satisfies the background and all groups but some often satisfies others of them after a few flips,
//! where groups that do not matter may become false in return. Kept is a list of clauses among which all falsified ones
//! are. One that matters is taken, and of its variables that were not flipped lately the one is flipped that falsifies fewest
//! clauses that matter. Where all were, it is one of these, so that a walk that came to a dead end turns back (WalkSAT with
//! a short tabu list: Selman, Kautz and Cohen 1994; Mazure, Saïs and Grégoire 1997).
//!
//! A flip can falsify only clauses that have the variable. So the list has all falsified ones after each flip, and at the
//! end no other clause is tested.
ghost use Rattle.std.specs.Prelude.{◌≡◌, ◌⊎◌, ◌<◌, ◌≤◌, ℕ, true, IfOk, IfSome, OnOk, Some, length, slice_get};
ghost use Rattle.sat_base.specs.Literals.{clause_true};
ghost use Rattle.sat_base.specs.Members.{In};
ghost use Rattle.gm_base.specs.declared.clause.Clause.{Clause};
ghost use Rattle.gm_base.specs.Sets.{has};
ghost use Rattle.gm_base.specs.Index.{IsOfGroup};
ghost use Rattle.model_flips.specs.Rotation.{IsListing, Satisfies, IsTurned};
ghost use Rattle.model_flips.specs.Repair.{IsFalseAmong, IsRepair};

use crate::rotation::{Rotation, Turned, with_lost};
use gm_base::{Assign, GroupSet, Problem};
use std::alloc::{AllocError, Global};

// How many variables are flipped for one assignment.
const MOST_REPAIRS: usize = 100;

// Of how many flips the variables are not flipped again, where a clause has others: of so many, else of the last one, and
// else of none.
const BARRED: [usize; 3] = [8, 1, 0];

// An assignment, and the places of clauses among which all are that it makes false.
#[derive(Drop)]
pub(crate) struct Repair {
    pub values: Assign,
    pub falsified: Vec<u32>,
}

impl Rotation {
    /// Flips variables of an assignment that satisfies the background and all groups but some, until it satisfies the
    /// background and all groups that are marked, and says which groups are left out then. Nothing where it does not come
    /// to that, or where more was looked at in all than `most`. No clause says that a marked group is not left out: who needs
    /// that looks at the groups. What a flip costs are the clauses that have one of the variables of a clause, and one
    /// flip of the assignment.
    pub fn repaired(
        &self,
        alloc: Global,
        problem: &Problem,
        marks: &[bool],
        out: &GroupSet,
        assign: &Assign,
        looks: &mut u64,
        most: u64,
    ) -> Result<Option<Turned>, AllocError>
        requires { length assign.now ≡ problem.now.vars }
        ensures { IfOk result (λ found. IfSome found (IsTurned problem.now self.now out.now assign.now)) }
    {
        let mut repair = begun(alloc, problem, out, assign)?;
        let mut flipped = Vec::new(alloc);
        for _ in 0..MOST_REPAIRS {
            let Some(place) = pressing(problem, marks, &repair.falsified) else {
                return finished(alloc, problem, repair);
            };
            let next = self.next_flip(problem, marks, &repair, &flipped, place, looks, most);
            let Some(var) = next else {
                return Ok(None);
            };
            flipped.push(var)?;
            repair = self.flipped(alloc, problem, &repair, var)?;
        }
        Ok(None)
    }

    // After the flip of a variable.
    fn flipped(
        &self,
        alloc: Global,
        problem: &Problem,
        repair: &Repair,
        var: u32,
    ) -> Result<Repair, AllocError>
        requires not_zero { 0 < var }
        requires in_range { var ≤ problem.now.vars }
        requires values { length repair.now.values ≡ problem.now.vars }
        ensures values { IfOk result (λ next. length next.values ≡ problem.now.vars) }
        ensures whole { IfOk result (λ next. IsListing problem.now.clauses self.now → IsRepair problem.now repair.now → IsRepair problem.now next) }
    {
        let _small = problem.groups(); // Its literals are over its variables.
        let values = repair.values.flipped(alloc, var)?;
        let mut falsified = Vec::new(alloc);
        add_false(problem, &repair.falsified, &values, &mut falsified)?;
        add_false(problem, self.of(var), &values, &mut falsified)?;
        Ok(Repair { values, falsified })
    }

    // The variable of a clause to be flipped next, whose flip is counted. Nothing where more was looked at than `most`.
    fn next_flip(
        &self,
        problem: &Problem,
        marks: &[bool],
        repair: &Repair,
        flipped: &[u32],
        place: u32,
        looks: &mut u64,
        most: u64,
    ) -> Option<u32>
        requires { length repair.now.values ≡ problem.now.vars }
        ensures not_zero { IfSome result (λ var. 0 < var) }
        ensures in_range { IfSome result (λ var. var ≤ problem.now.vars) }
    {
        let var = self.to_flip(problem, marks, repair, flipped, place, looks)?;
        if *looks > most || var == 0 || var > problem.vars() {
            return None;
        }
        *looks = looks.saturating_add(self.cost(var));
        Some(var)
    }

    // The variable of a clause to be flipped next: one that was not flipped lately, where there is one.
    fn to_flip(
        &self,
        problem: &Problem,
        marks: &[bool],
        repair: &Repair,
        flipped: &[u32],
        place: u32,
        looks: &mut u64,
    ) -> Option<u32>
        requires { length repair.now.values ≡ problem.now.vars }
    {
        for most in &BARRED {
            let barred = last_of(flipped, *most);
            let chosen = self.cheapest(problem, marks, &repair.values, barred, place, looks);
            if chosen.is_some() {
                return chosen;
            }
        }
        None
    }

    // The variable of a clause, but for those that are barred, whose flip falsifies fewest clauses that matter.
    fn cheapest(
        &self,
        problem: &Problem,
        marks: &[bool],
        values: &Assign,
        barred: &[u32],
        place: u32,
        looks: &mut u64,
    ) -> Option<u32>
        requires { length values.now ≡ problem.now.vars }
    {
        if place as usize >= problem.len() {
            return None;
        }
        let mut best = None;
        let mut fewest = usize::MAX;
        for lit in problem.clause(place as usize).lits.as_slice() {
            let var = lit.var();
            if !barred.contains(&var) {
                let places = self.of(var);
                *looks = looks.saturating_add(places.len() as u64);
                let broken = count_false(problem, marks, places, values, var);
                if broken < fewest {
                    fewest = broken;
                    best = Some(var);
                }
            }
        }
        best
    }
}

// The assignment, and the clauses of the groups left out that are false.
fn begun(
    alloc: Global,
    problem: &Problem,
    out: &GroupSet,
    assign: &Assign,
) -> Result<Repair, AllocError>
    requires { length assign.now ≡ problem.now.vars }
    ensures values { IfOk result (λ repair. length repair.values ≡ problem.now.vars) }
    ensures whole { IfOk result (λ repair. Satisfies problem.now out.now assign.now → IsRepair problem.now repair) }
{
    let _small = problem.groups(); // Its clauses are of its groups.
    let mut places = Vec::new(alloc);
    for group in out.as_slice() {
        add_places(problem, *group, &mut places)?;
    }
    let mut falsified = Vec::new(alloc);
    add_false(problem, &places, assign, &mut falsified)?;
    Ok(Repair {
        values: assign.copy()?,
        falsified,
    })
}

// Adds the places of the clauses of a group.
fn add_places(problem: &Problem, group: u32, places: &mut Vec<u32>) -> Result<(), AllocError>
    ensures keeps { OnOk result ((at : ℕ) → In at places.old.items → In at places.new.items) }
    ensures adds { OnOk result ((at : ℕ) → IsOfGroup problem.now.clauses group at → In at places.new.items) }
{
    for placed in problem.places(group) {
        places.push(placed.at)?;
    }
    Ok(())
}

// Adds those of the clauses at these places that are false.
fn add_false(
    problem: &Problem,
    places: &[u32],
    values: &Assign,
    falsified: &mut Vec<u32>,
) -> Result<(), AllocError>
    requires { length values.now ≡ problem.now.vars }
    ensures keeps { OnOk result ((at : ℕ) → In at falsified.old.items → In at falsified.new.items) }
    ensures adds { OnOk result (IsFalseAmong problem.now values.now places.now falsified.new.items) }
{
    for place in places {
        if is_false(problem, *place, values) {
            falsified.push(*place)?;
        }
    }
    Ok(())
}

// Whether there is a clause at this place, and it is false.
fn is_false(problem: &Problem, place: u32, values: &Assign) -> bool
    requires { length values.now ≡ problem.now.vars }
    ensures { (c : Clause) → slice_get problem.now.clauses place ≡ Some c → (clause_true values.now c.lits ≡ true) ⊎ (result ≡ true) }
{
    if place as usize >= problem.len() {
        return false;
    }
    !values.makes_any_true(problem.clause(place as usize).lits.as_slice())
}

// The assignment, and the groups of the clauses that are still false; nothing where the background is among them.
fn finished(alloc: Global, problem: &Problem, repair: Repair) -> Result<Option<Turned>, AllocError>
    requires { length repair.values ≡ problem.now.vars }
    ensures { IfOk result (λ found. IfSome found (λ turned. IsRepair problem.now repair → Satisfies problem.now turned.out turned.assign)) }
{
    let _small = problem.groups(); // Its clauses are of its groups.
    let none = GroupSet::new(alloc);
    let Some(out) = with_lost(alloc, problem, &repair.falsified, &repair.values, none)? else {
        return Ok(None);
    };
    let _groups = out.as_slice(); // They ascend.
    Ok(Some(Turned {
        out,
        assign: repair.values,
    }))
}

// Whether the clause at this place is of the background or of a marked group.
fn matters(problem: &Problem, marks: &[bool], place: u32) -> bool {
    if place as usize >= problem.len() {
        return false;
    }
    let group = problem.clause(place as usize).group;
    group == 0 || marks.get(group as usize) == Some(&true)
}

// The last of these clauses that matters.
fn pressing(problem: &Problem, marks: &[bool], falsified: &[u32]) -> Option<u32> {
    let mut last = None;
    for place in falsified {
        if matters(problem, marks, *place) {
            last = Some(*place);
        }
    }
    last
}

// How many of these clauses matter, and are false once a variable is flipped.
fn count_false(
    problem: &Problem,
    marks: &[bool],
    places: &[u32],
    values: &Assign,
    flipped: u32,
) -> usize
    requires { length values.now ≡ problem.now.vars }
{
    let mut count = 0usize;
    for place in places {
        if matters(problem, marks, *place) && is_false_behind(problem, *place, values, flipped) {
            count = count.saturating_add(1);
        }
    }
    count
}

// Whether there is a clause at this place, and it is false once a variable is flipped.
fn is_false_behind(problem: &Problem, place: u32, values: &Assign, flipped: u32) -> bool
    requires { length values.now ≡ problem.now.vars }
{
    if place as usize >= problem.len() {
        return false;
    }
    for lit in problem.clause(place as usize).lits.as_slice() {
        if values.makes_true(*lit) != (lit.var() == flipped) {
            return false;
        }
    }
    true
}

// The last ones of these, so many at most.
fn last_of(vars: &[u32], most: usize) -> &[u32] {
    match vars.get(vars.len().saturating_sub(most)..) {
        Some(last) => last,
        None => &[],
    }
}
