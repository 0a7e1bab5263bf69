//! A solver that is made when it is needed first.
//!
//! An enumeration has an oracle for each of its workers, and where there are more workers than processors most of them are
//! never asked anything. Whoever is told at the end what was derived wants a log of each all the same, which begins with all
//! clauses. So the clauses that are given stand once, in a list that all these solvers share, and a log is made at once, which
//! reads them there. The clauses with their watches, the trail and the order of decisions, which take most of the time and of
//! the memory, are made of the list at the first search. The solver's own log reads the list too.
ghost use Rattle.std.specs.Prelude.{◌≡◌, ◌<◌, ◌^◌, IfOk, OnErr, None, All};
ghost use Rattle.sat_base.specs.Literals.{AreLiterals};
ghost use Rattle.lrat_steps.specs.Log.{inputs_of};
ghost use Rattle.lrat_steps.specs.Honest.{IsHonest};
ghost use Rattle.cdcl_core.specs.Answers.{IsConsistent, IsHonestlyPaid, Tells};
ghost use Rattle.group_oracle.specs.Late.{new_over, solver_from};

use cdcl_core::{Solved, Solver};
use gm_base::{Lit, Purse};
use lrat_steps::{Given, Log};
use std::alloc::{AllocError, Global};
use std::marker::Model;

/// A solver of the clauses that it was given.
#[derive(Drop)]
pub struct LateSolver {
    vars: u32,
    given: Given,
    // The log of the clauses that were given, until there is a solver.
    log: Log,
    solver: Option<Solver>,
}

impl Model for LateSolver {
    ghost use Rattle.cdcl_core.specs.Solver.{Solver};

    ghost Value = { Solver };

    ghost use Rattle.group_oracle.specs.Late.{solver_of, IsLate};

    ghost view = { solver_of };

    ghost invariant = { IsLate };
}

impl LateSolver {
    /// A solver of these clauses, over the variables 1 to `vars`.
    pub fn over(alloc: Global, vars: u32, given: Given) -> Result<LateSolver, AllocError>
        requires small { vars < 2 ^ 31 }
        requires literals { All (AreLiterals vars) given }
        ensures { IfOk result (λ solver. solver ≡ new_over vars given) }
    {
        let log = Log::of_given(alloc, &given)?;
        Ok(LateSolver {
            vars,
            given,
            log,
            solver: None,
        })
    }

    /// Another solver of the clauses that this one was given, which both share from now on.
    pub fn twin(&self, alloc: Global) -> Result<LateSolver, AllocError>
        ensures { IfOk result (λ twin. twin ≡ new_over self.now.vars (inputs_of self.now.log)) }
    {
        let given = self.given.copy()?;
        LateSolver::over(alloc, self.vars, given)
    }

    /// Searches as [`Solver::solve`] does.
    pub fn solve(
        &mut self,
        alloc: Global,
        assumed: &[Lit],
        turn: u64,
        purse: &mut Purse,
    ) -> Result<Solved, AllocError>
        requires literals { AreLiterals self.old.vars assumed.now }
        requires consistent { IsConsistent assumed.now }
        ensures answer { IfOk result (λ answer. Tells self.new.vars self.new.log assumed.now purse.new.left answer) }
        ensures paid { IsHonestlyPaid self.old.log self.new.log purse.old.left purse.new.left }
        ensures vars { self.new.vars ≡ self.old.vars }
    {
        let mut solver = taken(alloc, self.vars, &self.given, &mut self.solver)?;
        let answer = solver.solve(alloc, assumed, turn, purse);
        // The solver has a log of its own.
        self.log = Log::new(alloc);
        self.solver = Some(solver);
        answer
    }

    /// The log so far.
    pub fn log(&self) -> &Log
        ensures log { result.now ≡ self.now.log }
        ensures honest { IsHonest self.now.log }
    {
        match &self.solver {
            Some(solver) => solver.log(),
            None => &self.log,
        }
    }

    /// The log, whose steps all stay.
    pub fn into_log(self) -> Log
        ensures log { result ≡ self.log }
        ensures honest { IsHonest result }
    {
        let LateSolver {
            vars: _,
            given: _,
            log,
            solver,
        } = self;
        match solver {
            Some(solver) => solver.into_log(),
            None => log,
        }
    }
}

// The solver that is kept, or a new one.
fn taken(
    alloc: Global,
    vars: u32,
    given: &Given,
    kept: &mut Option<Solver>,
) -> Result<Solver, AllocError>
    requires small { vars < 2 ^ 31 }
    requires literals { All (AreLiterals vars) given.now }
    ensures solver { IfOk result (λ solver. solver ≡ solver_from vars given.now kept.old) }
    ensures none { kept.new ≡ None }
    ensures err { OnErr result (kept.old ≡ None) }
{
    match kept.take() {
        Some(solver) => Ok(solver),
        None => solver_over(alloc, vars, given),
    }
}

// A solver of these clauses, whose log reads them where they stand.
fn solver_over(alloc: Global, vars: u32, given: &Given) -> Result<Solver, AllocError>
    requires small { vars < 2 ^ 31 }
    requires literals { All (AreLiterals vars) given.now }
    ensures { IfOk result (λ solver. solver ≡ new_over vars given.now) }
{
    let mut solver = Solver::beside(alloc, vars, given)?;
    for at in 0..given.len() {
        solver.add(alloc, given.lits(at))?;
    }
    Ok(solver)
}
