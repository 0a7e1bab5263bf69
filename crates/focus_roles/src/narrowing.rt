//! Narrowing a problem.
ghost use Rattle.std.specs.Prelude.{◌≡◌, IfOk};
ghost use Rattle.gm_base.specs.Problem.{is_present};
ghost use Rattle.focus_roles.specs.Narrow.{narrowed};

use gm_base::{Clause, Clauses, GroupSet, Lits, Problem};
use std::alloc::{AllocError, Global};

/// The problem with the clauses of the background and of these groups alone. A group of the set that the problem does not
/// have names nothing.
///
/// It is one walk over the clauses. What is kept is copied, so that the problem can be let go.
pub fn narrow(alloc: Global, problem: &Problem, focus: &GroupSet) -> Result<Problem, AllocError>
    ensures { IfOk result (λ p. p ≡ narrowed problem.now focus.now) }
{
    let mut clauses = Clauses::new(alloc);
    for at in 0..problem.len() {
        let clause = problem.clause(at);
        if stays(clause, focus) {
            clauses.push(copy_of(alloc, clause)?)?;
        }
    }
    Problem::new(alloc, problem.vars(), problem.groups(), clauses)
}

// Whether the clause is of the background or of one of these groups.
fn stays(clause: &Clause, focus: &GroupSet) -> bool
    ensures { result ≡ is_present focus.now clause.now }
{
    clause.group == 0 || focus.contains(clause.group)
}

fn copy_of(alloc: Global, clause: &Clause) -> Result<Clause, AllocError>
    ensures { IfOk result (λ copy. copy ≡ clause.now) }
{
    let lits = Lits::from_slice(alloc, clause.lits.as_slice())?;
    Ok(Clause {
        group: clause.group,
        lits,
    })
}
