//! Clauses with selectors, for the solver.
//!
//! The solver keeps each clause with its selector, so that assuming the selectors of some groups switches on the clauses of
//! those groups alone, and a clause that was learnt from them says itself which groups it needed.
ghost use Rattle.std.specs.Prelude.{◌≡◌, ℕ, ◌+◌, ◌<◌, ◌^◌, true, map, IfOk};
ghost use Rattle.gm_base.specs.Sets.{has};
ghost use Rattle.gm_base.specs.Evidence.{selector_form};
ghost use Rattle.group_oracle.specs.Selectors.{on};

use gm_base::{GroupSet, Lit, Problem, selector, write_with_selector};
use lrat_steps::{Given, GivenBuilder};
use std::alloc::{AllocError, Global};

/// The literals that switch on the groups of a set, ascending.
pub fn selectors_of(alloc: Global, vars: u32, set: &GroupSet) -> Result<Vec<Lit>, AllocError>
    requires { (g : ℕ) → has set.now g ≡ true → vars + g < 2 ^ 31 }
    ensures { IfOk result (λ lits. lits.items ≡ map (on vars) set.now) }
{
    let mut lits = Vec::with_capacity(alloc, set.len())?;
    for group in set.as_slice() {
        lits.push(selector(vars, *group))?;
    }
    Ok(lits)
}

/// The clauses of the problem, each with its selector.
pub fn given_clauses(alloc: Global, problem: &Problem) -> Result<Given, AllocError>
    ensures { IfOk result (λ given. given ≡ selector_form problem.now) }
{
    let mut clauses = GivenBuilder::new(alloc);
    let mut lits = Vec::new(alloc);
    for at in 0..problem.len() {
        write_with_selector(&mut lits, problem, problem.clause(at))?;
        clauses.push(&lits)?;
    }
    clauses.finish(alloc)
}
