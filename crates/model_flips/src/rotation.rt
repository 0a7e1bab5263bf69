//! Rotation of models.
//!
//! A group of an unsatisfiable set is critical where some assignment satisfies the background and all other groups of the
//! set. Often the flip of one variable makes such an assignment satisfy that group too, and leave another one false in
//! its place: then that one is critical as well, and no solver was asked (Marques-Silva and Lynce 2011).
//!
//! A flip changes the clauses that have the variable, and no other. So where an assignment is known to satisfy all groups
//! but some, these clauses and those of the groups left out are tested, and what comes of the flip is known as surely.
ghost use Rattle.std.specs.Prelude.{◌≡◌, ◌⊎◌, ◌<◌, ◌≤◌, ◌+◌, ◌^◌, ℕ, ℤ, true, false, IfOk, IfSome, OnOk, Some, length, slice_get};
ghost use Rattle.sat_base.specs.Literals.{AreLiterals, clause_true, var_of};
ghost use Rattle.sat_base.specs.Members.{In};
ghost use Rattle.gm_base.specs.declared.clause.Clause.{Clause};
ghost use Rattle.gm_base.specs.Sets.{has, complement};
ghost use Rattle.gm_base.specs.Index.{group_true};
ghost use Rattle.gm_base.specs.Problem.{Problem};
ghost use Rattle.gm_base.specs.Evidence.{is_witness};
ghost use Rattle.model_flips.specs.Rotation.{IsListing, listed, HasLost, IsTurned};

use gm_base::{Assign, GroupSet, Lit, Problem};
use sat_base::Row;
use std::alloc::{AllocError, Global};
use std::marker::Model;

/// Of each variable, the places of the clauses that have it.
#[derive(Drop)]
pub struct Rotation {
    places: Vec<Row<u32>>,
}

impl Model for Rotation {
    ghost use Rattle.std.specs.Prelude.{List, ℕ};

    ghost Value = { List (List ℕ) };

    ghost view = { λ rotation. rotation.places.items };
}

/// An assignment, and the groups that it leaves out.
#[derive(Drop)]
pub struct Turned {
    pub out: GroupSet,
    pub assign: Assign,
}

impl Rotation {
    /// Looks through the clauses once.
    pub fn new(alloc: Global, problem: &Problem) -> Result<Rotation, AllocError>
        ensures { IfOk result (λ rotation. IsListing problem.now.clauses rotation) }
    {
        let _small = problem.groups(); // Its literals are over its variables.
        let vars = problem.vars();
        let mut places = empty_rows(alloc, vars as usize + 1)?;
        for at in 0..problem.len() {
            let Ok(place) = u32::try_from(at) else {
                return Err(AllocError);
            };
            let lits = problem.clause(at).lits.as_slice();
            list_clause(&mut places, vars, lits, place)?;
        }
        Ok(Rotation { places })
    }

    /// The places of the clauses that have a variable.
    pub(crate) fn of(&self, var: u32) -> &[u32]
        ensures { result.now ≡ listed self.now var }
    {
        match self.places.get(var as usize) {
            Some(places) => places.as_slice(),
            None => &[],
        }
    }

    /// What a turn by a variable looks at: clauses, words of an assignment, of which a flip copies 64 at most, and pointers
    /// to the others.
    pub fn cost(&self, var: u32) -> u64 {
        let words = self.places.len() / 64;
        let copied = words.min(64).saturating_add(words / 64);
        let clauses = self.of(var).len();
        copied.saturating_add(clauses).saturating_add(16) as u64
    }

    /// The variables of which one flip may make a false group true: those that stand in each of its false clauses.
    pub fn candidates(
        &self,
        alloc: Global,
        problem: &Problem,
        assign: &Assign,
        group: u32,
    ) -> Result<Vec<u32>, AllocError>
        requires { length assign.now ≡ problem.now.vars }
    {
        let mut vars = Vec::new(alloc);
        let mut is_first = true;
        for placed in problem.places(group) {
            let lits = problem.clause(placed.at as usize).lits.as_slice();
            if !assign.makes_any_true(lits) {
                meet(&mut vars, lits, is_first)?;
                is_first = false;
            }
        }
        Ok(vars)
    }

    /// Flips a variable of an assignment that satisfies the background and all groups but some, and says which groups are
    /// left out then; nothing where that is the background. What it costs are the clauses that have the variable, those of
    /// the groups left out, and a flip of the assignment.
    pub fn turned(
        &self,
        alloc: Global,
        problem: &Problem,
        out: &GroupSet,
        assign: &Assign,
        var: u32,
    ) -> Result<Option<Turned>, AllocError>
        requires not_zero { 0 < var }
        requires in_range { var ≤ problem.now.vars }
        requires assign { length assign.now ≡ problem.now.vars }
        ensures { IfOk result (λ found. IfSome found (IsTurned problem.now self.now out.now assign.now)) }
    {
        let _small = problem.groups(); // Its literals are over its variables.
        let values = assign.flipped(alloc, var)?;
        let left = still_out(alloc, problem, out, &values)?;
        let Some(out) = with_lost(alloc, problem, self.of(var), &values, left)? else {
            return Ok(None);
        };
        let _groups = out.as_slice(); // They ascend.
        Ok(Some(Turned {
            out,
            assign: values,
        }))
    }
}

// Keeps the variables that stand in a clause; of the first one, takes them all.
fn meet(vars: &mut Vec<u32>, lits: &[Lit], is_first: bool) -> Result<(), AllocError> {
    if !is_first {
        vars.retain(|var| stands_in(*var, lits));
        return Ok(());
    }
    for lit in lits {
        vars.push(lit.var())?;
    }
    Ok(())
}

fn stands_in(var: u32, lits: &[Lit]) -> bool {
    for lit in lits {
        if lit.var() == var {
            return true;
        }
    }
    false
}

// So many empty rows.
fn empty_rows(alloc: Global, count: usize) -> Result<Vec<Row<u32>>, AllocError>
    ensures { IfOk result (λ rows. length rows.items ≡ count) }
{
    let mut rows = Vec::with_capacity(alloc, count)?;
    for _ in 0..count {
        rows.push(Row::new(alloc))?;
    }
    Ok(rows)
}

// Lists a clause under the variables of its literals.
fn list_clause(
    places: &mut Vec<Row<u32>>,
    vars: u32,
    lits: &[Lit],
    place: u32,
) -> Result<(), AllocError>
    requires rows { length places.old.items ≡ vars + 1 }
    requires literals { AreLiterals vars lits.now }
    ensures rows { OnOk result (length places.new.items ≡ vars + 1) }
    ensures keeps { OnOk result ((var at : ℕ) → In at (listed places.old.items var) → In at (listed places.new.items var)) }
    ensures lists { OnOk result ((lit : ℤ) → In lit lits.now → In place (listed places.new.items (var_of lit))) }
{
    for lit in lits {
        list_under(places, lit.var(), place)?;
    }
    Ok(())
}

// Lists a clause under a variable.
fn list_under(places: &mut Vec<Row<u32>>, var: u32, place: u32) -> Result<(), AllocError>
    requires { var < length places.old.items }
    ensures rows { OnOk result (length places.new.items ≡ length places.old.items) }
    ensures keeps { OnOk result ((v at : ℕ) → In at (listed places.old.items v) → In at (listed places.new.items v)) }
    ensures lists { OnOk result (In place (listed places.new.items var)) }
{
    places[var as usize].push(place)?;
    Ok(())
}

// Those of the groups that are still false.
fn still_out(
    alloc: Global,
    problem: &Problem,
    out: &GroupSet,
    values: &Assign,
) -> Result<GroupSet, AllocError>
    requires { length values.now ≡ problem.now.vars }
    ensures { IfOk result (λ left. (g : ℕ) → has out.now g ≡ true → (has left g ≡ true) ⊎ (group_true problem.now.clauses values.now g ≡ true)) }
{
    let mut left = out.copy(alloc)?;
    for group in out.as_slice() {
        left = without_true(alloc, problem, left, *group, values)?;
    }
    Ok(left)
}

// The groups without this one, where it is true.
fn without_true(
    alloc: Global,
    problem: &Problem,
    left: GroupSet,
    group: u32,
    values: &Assign,
) -> Result<GroupSet, AllocError>
    requires { length values.now ≡ problem.now.vars }
    ensures { IfOk result (λ rest. (g : ℕ) → has left g ≡ true → (has rest g ≡ true) ⊎ (group_true problem.now.clauses values.now g ≡ true)) }
{
    if !problem.group_holds(group, values) {
        return Ok(left);
    }
    let rest = left.without(alloc, group)?;
    Ok(rest)
}

/// The groups left out, and those of these clauses that are false. Nothing where the background is among them.
pub(crate) fn with_lost(
    alloc: Global,
    problem: &Problem,
    places: &[u32],
    values: &Assign,
    left: GroupSet,
) -> Result<Option<GroupSet>, AllocError>
    requires { length values.now ≡ problem.now.vars }
    ensures { IfOk result (λ found. IfSome found (λ out. HasLost problem.now values.now left out places.now)) }
{
    let mut out = left;
    for place in places {
        let Some(more) = with_false(alloc, problem, *place as usize, values, out)? else {
            return Ok(None);
        };
        out = more;
    }
    Ok(Some(out))
}

// The groups left out, and that of the clause at this place, where it is false. Nothing where that is the background.
fn with_false(
    alloc: Global,
    problem: &Problem,
    at: usize,
    values: &Assign,
    out: GroupSet,
) -> Result<Option<GroupSet>, AllocError>
    requires { length values.now ≡ problem.now.vars }
    ensures keeps { IfOk result (λ found. IfSome found (λ more. (g : ℕ) → has out g ≡ true → has more g ≡ true)) }
    ensures lost { IfOk result (λ found. IfSome found (λ more. (c : Clause) → slice_get problem.now.clauses at ≡ Some c → (clause_true values.now c.lits ≡ true) ⊎ (has more c.group ≡ true))) }
{
    if at >= problem.len() {
        return Ok(Some(out));
    }
    let clause = problem.clause(at);
    if values.makes_any_true(clause.lits.as_slice()) {
        return Ok(Some(out));
    }
    if clause.group == 0 {
        return Ok(None);
    }
    let more = out.with(alloc, clause.group)?;
    Ok(Some(more))
}
