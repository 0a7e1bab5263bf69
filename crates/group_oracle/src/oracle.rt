//! The oracle.
//!
//! The oracle is a learning solver over the clauses of the problem with selectors. A question about a set is a search under
//! the selectors of its groups, so what was learnt for one question serves all later ones. An assignment that makes all
//! clauses and these selectors true satisfies the background and the set, since "or its group is off" is false in each of
//! their clauses. Where there is none, the log has a clause that switches off groups of the set alone, and that clause
//! follows from clauses that hold whatever is assumed: these groups are unsatisfiable with the background.
//!
//! The problem itself isn't kept: it is what stands in the log behind the selectors. Oracles for one problem that are made
//! one of another share the clauses that they were given, and their logs read them there; what each learns is its own.
//!
//! Assignments of one oracle mostly differ in few variables, and many are kept. So each shares with the one before it what
//! both have alike.
ghost use Rattle.std.specs.Prelude.{◌≡◌, ◌+◌, ◌<◌, ◌^◌, ℕ, map, IfOk, true, List, Some, IsSome, OnErr};
ghost use Rattle.gm_base.specs.Sets.{IsSubset, all_groups};
ghost use Rattle.gm_base.specs.Problem.{IsProblem};
ghost use Rattle.gm_base.specs.Evidence.{refutes, selector_form};
ghost use Rattle.lrat_steps.specs.Log.{Input};
ghost use Rattle.evidence_rec.specs.Asking.{OracleState, TellsAsked, IsSpent, IsHonestOver, refuted_by, asked_once};
ghost use Rattle.group_oracle.specs.Fresh.{IsFresh};
ghost use Rattle.group_oracle.specs.Selectors.{problem_of};

use crate::cores::groups_off;
use crate::late_solver::LateSolver;
use crate::selectors::{given_clauses, selectors_of};
use cdcl_core::Solved;
use evidence_rec::{Asked, Oracle};
use gm_base::{Assign, Derivation, GroupSet, Problem, Purse};
use lrat_steps::Log;
use std::alloc::{AllocError, Global};
use std::marker::Model;

/// Answers questions about a problem by the learning solver.
#[derive(Drop)]
pub struct GroupOracle {
    solver: LateSolver,
    vars: u32,
    groups: u32,
    // The id of the step whose clause says that the last set is unsatisfiable: its literals are the set.
    refuted: Option<u64>,
    asks: u64,
    // The assignment of the last answer that was one. The next one shares with it what both have alike.
    last: Option<Assign>,
}

impl Model for GroupOracle {
    ghost use Rattle.evidence_rec.specs.Asking.{OracleState};

    ghost Value = { OracleState };

    ghost use Rattle.group_oracle.specs.Inside.{view_of, IsOracle};

    ghost view = { view_of };

    ghost invariant = { IsOracle };
}

impl GroupOracle {
    /// An oracle for the problem, which is not needed from then on. Its clauses are copied once, each with its selector.
    pub fn new(alloc: Global, problem: &Problem) -> Result<GroupOracle, AllocError>
        ensures { IfOk result (λ oracle. IsFresh problem.now oracle) }
    {
        let vars = problem.vars();
        let groups = problem.groups();
        let given = given_clauses(alloc, problem)?;
        let solver = LateSolver::over(alloc, vars + groups, given)?;
        Ok(GroupOracle::fresh(solver, vars, groups))
    }

    /// Another oracle for the same problem, that was asked nothing. Both share the clauses that they were given.
    pub fn twin(&self, alloc: Global) -> Result<GroupOracle, AllocError>
        ensures { IfOk result (λ twin. IsFresh self.now.problem twin) }
    {
        let solver = self.solver.twin(alloc)?;
        Ok(GroupOracle::fresh(solver, self.vars, self.groups))
    }

    // An oracle that was asked nothing, over a solver of the clauses of a problem with so many variables and groups.
    fn fresh(solver: LateSolver, vars: u32, groups: u32) -> GroupOracle
        requires vars { solver.vars ≡ vars + groups }
        requires small { vars + groups < 2 ^ 31 }
        requires well_formed { IsProblem (problem_of vars groups solver.log) }
        requires given { solver.log ≡ map Input (selector_form (problem_of vars groups solver.log)) }
        ensures { IsFresh (problem_of vars groups solver.log) result }
    {
        GroupOracle {
            solver,
            vars,
            groups,
            refuted: None,
            asks: 0,
            last: None,
        }
    }

    /// How many questions there were, up to the greatest `u64`.
    pub fn asks(&self) -> u64
        ensures { result ≡ self.now.asks }
    {
        self.asks
    }
}

impl Oracle for GroupOracle {
    ghost state = { λ oracle. oracle };

    fn ask(
        &mut self,
        alloc: Global,
        set: &GroupSet,
        turn: u64,
        purse: &mut Purse,
    ) -> Result<Asked, AllocError> {
        self.asks = self.asks.saturating_add(1);
        self.refuted = None;
        let assumed = selectors_of(alloc, self.vars, set)?;
        match self.solver.solve(alloc, &assumed, turn, purse)? {
            Solved::Sat(assign) => {
                let assign = like_last(assign.prefix(self.vars), &mut self.last);
                Ok(Asked::Sat(assign))
            }
            Solved::Unsat(step) => {
                let core = groups_off(alloc, self.vars, self.solver.log().lits(step))?;
                self.refuted = Some(step);
                Ok(Asked::Unsat(core))
            }
            Solved::Dry => Ok(Asked::Dry),
        }
    }

    fn proof(&self, alloc: Global) -> Result<Derivation, AllocError> {
        let Some(step) = self.refuted else {
            unreachable!();
        };
        self.solver.log().trim(alloc, step)
    }

    fn into_log(self) -> Log {
        self.solver.into_log()
    }
}

// The assignment, which is the last one from now on. What it has alike with the one before is shared with that.
fn like_last(mut assign: Assign, last: &mut Option<Assign>) -> Assign
    ensures { result ≡ assign }
{
    if let Some(last) = last.as_ref() {
        assign.share(last);
    }
    // A copy takes no memory. Where there can be none, none is kept.
    *last = assign.copy().ok();
    assign
}
