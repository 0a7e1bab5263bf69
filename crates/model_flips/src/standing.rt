//! How clauses and groups stand under an assignment.
//!
//! Of each clause it is counted how many of its literals are true, and of each group how many of its clauses are
//! falsified. A flip costs the clauses that have the variable, and no other clause is looked at.
use crate::occurrences::Occurrences;
use gm_base::{Assign, AssignBuilder, Lit, Problem};
use std::alloc::{AllocError, Global};

/// Values of variables, and what is counted under them.
#[derive(Drop)]
pub struct Standing {
    // Of each variable, from 1 on.
    values: Vec<bool>,
    // Of each clause, how many of its literals are true, and its group.
    true_lits: Vec<u32>,
    groups: Vec<u32>,
    // Of each group, the background first, how many of its clauses are falsified.
    falsified: Vec<u32>,
}

impl Standing {
    /// All variables are false.
    pub fn new(alloc: Global, problem: &Problem) -> Result<Standing, AllocError> {
        let mut standing = Standing {
            values: vec![in alloc; false; problem.vars() as usize + 1]?,
            true_lits: Vec::with_capacity(alloc, problem.len())?,
            groups: Vec::with_capacity(alloc, problem.len())?,
            falsified: vec![in alloc; 0; problem.groups() as usize + 1]?,
        };
        for at in 0..problem.len() {
            let clause = problem.clause(at);
            standing.add(clause.lits.as_slice(), clause.group)?;
        }
        Ok(standing)
    }

    // The next clause, where all variables are false.
    fn add(&mut self, lits: &[Lit], group: u32) -> Result<(), AllocError> {
        let count = negative_lits(lits);
        if count == 0 {
            raise(&mut self.falsified, group);
        }
        self.true_lits.push(count)?;
        self.groups.push(group)?;
        Ok(())
    }

    pub fn value(&self, var: u32) -> bool {
        self.values.get(var as usize) == Some(&true)
    }

    /// How many literals of a clause are true.
    pub fn true_lits(&self, clause: u32) -> u32 {
        read(&self.true_lits, clause)
    }

    /// The group of a clause.
    pub fn group(&self, clause: u32) -> u32 {
        read(&self.groups, clause)
    }

    /// Whether no clause of the group is falsified.
    pub fn holds(&self, group: u32) -> bool {
        read(&self.falsified, group) == 0
    }

    /// Gives a variable its other value.
    pub fn flip(&mut self, occurrences: &Occurrences, var: u32) {
        let at = var as usize;
        if at >= self.values.len() {
            return;
        }
        let value = !self.values[at];
        self.values[at] = value;
        for clause in occurrences.made_true_by(var, value) {
            self.gain(*clause);
        }
        'lost: for clause in occurrences.made_true_by(var, !value) {
            self.lose(*clause);
        }
    }

    // A literal of the clause became true.
    fn gain(&mut self, clause: u32) {
        if self.true_lits(clause) == 0 {
            let group = self.group(clause);
            lower(&mut self.falsified, group);
        }
        raise(&mut self.true_lits, clause);
    }

    // A literal of the clause became false.
    fn lose(&mut self, clause: u32) {
        lower(&mut self.true_lits, clause);
        if self.true_lits(clause) == 0 {
            let group = self.group(clause);
            raise(&mut self.falsified, group);
        }
    }

    /// The values of so many variables as an assignment.
    pub fn assignment(&self, alloc: Global, vars: u32) -> Result<Assign, AllocError> {
        let mut builder = AssignBuilder::all_false(alloc, vars)?;
        for at in 0..vars {
            if self.value(at + 1) {
                builder.set(at + 1, true);
            }
        }
        builder.finish(alloc)
    }
}

fn negative_lits(lits: &[Lit]) -> u32 {
    let mut count = 0u32;
    for lit in lits {
        if !lit.is_positive() {
            count = count.saturating_add(1);
        }
    }
    count
}

fn read(counts: &[u32], at: u32) -> u32 {
    counts.get(at as usize).copied().unwrap_or(0)
}

fn raise(counts: &mut [u32], at: u32) {
    let at = at as usize;
    if at < counts.len() {
        counts[at] = counts[at].saturating_add(1);
    }
}

fn lower(counts: &mut [u32], at: u32) {
    let at = at as usize;
    if at < counts.len() {
        counts[at] = counts[at].saturating_sub(1);
    }
}
