//! Problems.
//!
//! A problem is a list of clauses in groups. Beside them stands an index, by which the clauses of a group are found
//! without a walk over the others. Contracts see the clauses alone. None of it ever changes, so copies share all.
ghost use Rattle.std.specs.Prelude.{◌≡◌, ◌<◌, ◌+◌, ◌^◌, ◌↔◌, IsTrue, IfOk, Some, length, slice_get};
ghost use Rattle.gm_base.specs.Problem.{IsClause, IsProblem, satisfies};
ghost use Rattle.gm_base.specs.Index.{ArePlaces, group_true};

use crate::clause::{Clause, Clauses};
use crate::group_set::GroupSet;
use crate::index::{Placed, index_of, starts_of, stretch};
use sat_base::Assign;
use std::alloc::{AllocError, Global};
use std::marker::Model;
use std::sync::Arc;

/// Clauses in groups from 0 to `groups`, over variables from 1 to `vars`.
#[derive(Drop)]
pub struct Problem {
    vars: u32,
    groups: u32,
    clauses: Arc<Vec<Clause>, Global>,
    index: Arc<Vec<Placed>, Global>,
    /// Where the clauses of each group begin in the index.
    starts: Arc<Vec<u32>, Global>,
}

impl Model for Problem {
    ghost use Rattle.std.specs.Prelude.{◌+◌, ◌^◌, ◌<◌};
    ghost use Rattle.std.specs.Arc.{arc_value};
    ghost use Rattle.gm_base.specs.Problem.{Problem, IsProblem};
    ghost use Rattle.gm_base.specs.Index.{IsIndex, AreStarts};

    ghost Value = { Problem };

    ghost view = { λ p. record { vars = p.vars; groups = p.groups; clauses = (arc_value p.clauses).items } };

    ghost invariant = { λ p.
        record {
          well_formed : IsProblem (record { vars = p.vars; groups = p.groups; clauses = (arc_value p.clauses).items });
          small : p.vars + p.groups < 2 ^ 31;
          index : IsIndex (arc_value p.clauses).items (arc_value p.index).items;
          starts : AreStarts (arc_value p.index).items (arc_value p.starts).items;
        } };
}

impl Problem {
    /// A problem of these clauses. `clause_fits` tells whether a clause is over these variables and groups.
    pub fn new(
        alloc: Global,
        vars: u32,
        groups: u32,
        clauses: Clauses,
    ) -> Result<Problem, AllocError>
        requires well_formed { IsProblem (record { vars = vars; groups = groups; clauses = clauses }) }
        requires small { vars + groups < 2 ^ 31 }
        ensures { IfOk result (λ p. p ≡ record { vars = vars; groups = groups; clauses = clauses }) }
    {
        let clauses = clauses.into_vec();
        let index = index_of(alloc, clauses.as_slice())?;
        let starts = starts_of(alloc, index.as_slice())?;
        let clauses = Arc::new(alloc, clauses)?;
        let index = Arc::new(alloc, index)?;
        let starts = Arc::new(alloc, starts)?;
        Ok(Problem {
            vars,
            groups,
            clauses,
            index,
            starts,
        })
    }

    /// One more reference to it. It takes no memory, and fails where there are 2^63 references already.
    pub fn copy(&self) -> Result<Problem, AllocError>
        ensures { IfOk result (λ copy. copy ≡ self.now) }
    {
        let clauses = Arc::try_clone(&self.clauses)?;
        let index = Arc::try_clone(&self.index)?;
        let starts = Arc::try_clone(&self.starts)?;
        Ok(Problem {
            vars: self.vars,
            groups: self.groups,
            clauses,
            index,
            starts,
        })
    }

    pub fn vars(&self) -> u32
        ensures { result ≡ self.now.vars }
    {
        self.vars
    }

    /// The greatest group number.
    pub fn groups(&self) -> u32
        ensures count { result ≡ self.now.groups }
        ensures well_formed { IsProblem self.now }
        ensures small { self.now.vars + self.now.groups < 2 ^ 31 }
    {
        self.groups
    }

    /// How many clauses it has.
    pub fn len(&self) -> usize
        ensures { result ≡ length self.now.clauses }
    {
        self.clauses.len()
    }

    /// The clause at a place, from 0.
    pub fn clause(&self, at: usize) -> &Clause
        requires { at < length self.now.clauses }
        ensures same { slice_get self.now.clauses at ≡ Some result.now }
        ensures fits { IsClause self.now.vars self.now.groups result.now }
    {
        &self.clauses.as_slice()[at]
    }

    /// Where the clauses of a group stand, without a walk over the others.
    pub fn places(&self, group: u32) -> &[Placed]
        ensures { ArePlaces self.now.clauses group result.now }
    {
        stretch(self.index.as_slice(), self.starts.as_slice(), group)
    }

    /// Whether the assignment makes the clauses of this group true. It looks at these clauses alone.
    pub fn group_holds(&self, group: u32, assign: &Assign) -> bool
        requires { length assign.now ≡ self.now.vars }
        ensures { result ≡ group_true self.now.clauses assign.now group }
    {
        for placed in self.places(group) {
            let clause = self.clause(placed.at as usize);
            if !assign.makes_any_true(clause.lits.as_slice()) {
                return false;
            }
        }
        true
    }

    /// Whether the assignment makes the background and the groups of the set true.
    pub fn holds(&self, set: &GroupSet, assign: &Assign) -> bool
        requires { length assign.now ≡ self.now.vars }
        ensures { result ≡ satisfies self.now set.now assign.now }
    {
        if !self.group_holds(0, assign) {
            return false;
        }
        for g in set.as_slice() {
            if !self.group_holds(*g, assign) {
                return false;
            }
        }
        true
    }
}

/// Whether a clause is over these groups and variables.
pub fn clause_fits(vars: u32, groups: u32, clause: &Clause) -> bool
    ensures { IsTrue result ↔ IsClause vars groups clause.now }
{
    if clause.group > groups {
        return false;
    }
    for lit in clause.lits.as_slice() {
        if lit.var() > vars {
            return false;
        }
    }
    true
}
