//! Selectors in a refutation.
//!
//! A clause derived from clauses with their selectors says which groups it needs: one at least has to be left out.
ghost use Rattle.std.specs.Prelude.{◌≡◌, ◌↔◌, ◌+◌, ◌<◌, ◌≤◌, ◌++◌, ◌∷◌, [], IsTrue, IfOk, OnOk, length};
ghost use Rattle.std.specs.List.{list_all};
ghost use Rattle.gm_base.specs.Sets.{has};
ghost use Rattle.gm_base.specs.Problem.{IsClause};
ghost use Rattle.gm_base.specs.Evidence.{with_selector};
ghost use Rattle.evidence_rec.specs.Basis.{Begins, basis_of, refuted_set};
ghost use Rattle.evidence_rec.specs.Refusals.{leaves_out};

use gm_base::{Clause, GroupSet, Lit, Problem, write_with_selector};
use lrat_check::Checker;
use std::alloc::{AllocError, Global};

/// A checker of steps from the problem's clauses with their selectors.
pub fn selector_checker(alloc: Global, problem: &Problem) -> Result<Checker, AllocError>
    ensures { IfOk result (λ checker. Begins (basis_of problem.now) checker) }
{
    let vars = problem.vars() + problem.groups();
    let mut checker = Checker::with_vars(alloc, vars)?;
    let mut lits = Vec::new(alloc);
    for at in 0..problem.len() {
        add_clause(&mut checker, &mut lits, problem, problem.clause(at))?;
    }
    Ok(checker)
}

// Adds a clause, by way of a list that is used for each.
fn add_clause(
    checker: &mut Checker,
    lits: &mut Vec<Lit>,
    problem: &Problem,
    clause: &Clause,
) -> Result<(), AllocError>
    requires fits { IsClause problem.now.vars problem.now.groups clause.now }
    requires vars { checker.old.vars ≡ problem.now.vars + problem.now.groups }
    requires no_steps { length checker.old.known ≡ checker.old.inputs }
    ensures added { OnOk result (checker.new.known ≡ checker.old.known ++ (checker.old.inputs + 1, with_selector problem.now clause.now) ∷ []) }
    ensures inputs { OnOk result (checker.new.inputs ≡ checker.old.inputs + 1) }
    ensures vars { checker.new.vars ≡ checker.old.vars }
{
    write_with_selector(lits, problem, clause)?;
    checker.add_input(lits.as_slice())
}

/// Whether each literal says that some group is left out that the proof refutes.
pub fn are_left_out(problem: &Problem, set: &GroupSet, own: Option<u32>, clause: &[Lit]) -> bool
    ensures { result ≡ list_all (leaves_out problem.now (refuted_set problem.now.groups set.now own)) clause.now }
{
    for lit in clause {
        if !is_left_out(problem, set, own, *lit) {
            return false;
        }
    }
    true
}

fn is_left_out(problem: &Problem, set: &GroupSet, own: Option<u32>, lit: Lit) -> bool
    ensures { result ≡ leaves_out problem.now (refuted_set problem.now.groups set.now own) lit }
{
    let var = lit.var();
    if lit.is_positive() || var < problem.vars() {
        return false;
    }
    is_refuted(set, own, problem.groups(), var - problem.vars())
}

// Whether the group is one of those that a proof refutes.
fn is_refuted(set: &GroupSet, own: Option<u32>, groups: u32, group: u32) -> bool
    ensures { result ≡ has (refuted_set groups set.now own) group }
{
    let Some(own) = own else {
        return set.contains(group);
    };
    if !is_group(groups, group) {
        return false;
    }
    if group == own {
        return true;
    }
    !set.contains(group)
}

fn is_group(groups: u32, group: u32) -> bool
    ensures { IsTrue result ↔ ((0 < group) × (group ≤ groups)) }
{
    0 < group && group <= groups
}
