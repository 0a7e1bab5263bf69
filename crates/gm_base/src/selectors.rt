//! Selectors.
//!
//! The selector of a group is a variable of its own, behind those of the problem: group g has the variable `vars + g`. A
//! clause of a group other than the background is written with "or its group is left out". So assuming the selectors of
//! some groups switches on the clauses of those groups alone, and a clause that was derived from some groups says itself
//! which of them have to go: one at least (assumed literals as selectors: Eén and Sörensson 2003).
ghost use Rattle.std.specs.Prelude.{◌≡◌, ◌+◌, ◌<◌, ◌^◌, pos, OnOk};
ghost use Rattle.gm_base.specs.Problem.{IsClause};
ghost use Rattle.gm_base.specs.Evidence.{with_selector};

use crate::clause::Clause;
use crate::problem::Problem;
use sat_base::Lit;
use std::alloc::AllocError;

/// The literal that switches a group on, behind so many variables.
pub fn selector(vars: u32, group: u32) -> Lit
    requires not_background { 0 < group }
    requires in_range { vars + group < 2 ^ 31 }
    ensures { result ≡ pos (vars + group) }
{
    Lit::new((vars + group) as i32)
}

/// Writes a clause with its selector in the place of what the list has.
pub fn write_with_selector(
    lits: &mut Vec<Lit>,
    problem: &Problem,
    clause: &Clause,
) -> Result<(), AllocError>
    requires { IsClause problem.now.vars problem.now.groups clause.now }
    ensures { OnOk result (lits.new.items ≡ with_selector problem.now clause.now) }
{
    let groups = problem.groups();
    lits.clear();
    lits.extend_from_slice(clause.lits.as_slice())?;
    if clause.group > 0 {
        lits.push(selector(problem.vars(), clause.group).negated())?;
    }
    Ok(())
}
