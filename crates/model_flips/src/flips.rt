//! Making groups true by flips.
//!
//! Kept are the background and the groups that were true when the assignment came or were made true since: no flip may
//! leave a clause of them falsified. While a group is tried, its own clauses count with them. The clauses that have to be
//! made true stand on a list; one is taken, and of its variables that were not flipped yet the one is flipped that
//! falsifies fewest clauses, which then stand on the list themselves.
ghost use Rattle.std.specs.Prelude.{◌≡◌, true, IfOk, IfSome};
ghost use Rattle.gm_base.specs.Sets.{complement};
ghost use Rattle.gm_base.specs.Evidence.{is_witness};

use crate::occurrences::Occurrences;
use crate::standing::Standing;
use gm_base::{Assign, GroupSet, Lit, Problem};
use std::alloc::{AllocError, Global};
use std::marker::Model;

/// How many variables are flipped for one group.
pub const MOST_FLIPS: usize = 8;

/// An assignment of a problem, and how its clauses stand under it.
#[derive(Drop)]
pub struct Flips {
    problem: Problem,
    occurrences: Occurrences,
    standing: Standing,
    // The assignment that came last, to share words with.
    start: Option<Assign>,
    // By group, the background first.
    kept: Vec<bool>,
    // Clauses that have to be made true, and the variables that were flipped for the group at hand.
    open: Vec<u32>,
    flipped: Vec<u32>,
    work: u64,
}

// A variable, how many clauses its flip falsifies, and what was looked at to find it.
#[derive(Clone, Copy)]
struct Choice {
    var: u32,
    broken: usize,
    looks: usize,
}

impl Choice {
    fn weigh(&mut self, var: u32, broken: usize, looks: usize) {
        self.looks = self.looks.saturating_add(looks);
        if broken < self.broken {
            self.broken = broken;
            self.var = var;
        }
    }
}

impl Model for Flips {
    ghost use Rattle.gm_base.specs.Problem.{Problem};

    ghost Value = { Problem };

    ghost view = { λ flips. flips.problem };
}

impl Flips {
    /// All variables are false.
    pub fn new(alloc: Global, problem: &Problem) -> Result<Flips, AllocError>
        ensures { IfOk result (λ flips. flips ≡ problem.now) }
    {
        let kept = vec![in alloc; false; problem.groups() as usize + 1]?;
        let occurrences = Occurrences::new(alloc, problem)?;
        let standing = Standing::new(alloc, problem)?;
        Ok(Flips {
            problem: problem.copy()?,
            occurrences,
            standing,
            start: None,
            kept,
            open: Vec::new(alloc),
            flipped: Vec::new(alloc),
            work: 0,
        })
    }

    pub fn problem(&self) -> &Problem
        ensures { result.now ≡ self.now }
    {
        &self.problem
    }

    /// What was looked at since the beginning, counted in literals.
    pub fn work(&self) -> u64 {
        self.work
    }

    /// Which groups are kept, the background first.
    pub fn kept(&self) -> &[bool] {
        self.kept.as_slice()
    }

    /// Takes an assignment of all variables, and keeps the groups that it makes true. It costs what differs from the last
    /// one, and a look at each variable and each group.
    pub fn begin(&mut self, assign: &Assign)
        ensures { self.new ≡ self.old }
    {
        let _small = self.problem.groups(); // A variable's number fits a literal.
        let vars = self.problem.vars();
        if assign.len() != vars as usize {
            return;
        }
        for at in 0..vars {
            if assign.makes_true(Lit::new((at + 1) as i32)) != self.standing.value(at + 1) {
                self.flip(at + 1);
            }
        }
        self.start = assign.copy().ok();
        keep_true(&mut self.kept, &self.standing);
        let groups = self.kept.len();
        self.count((vars as usize).saturating_add(groups) / 8);
    }

    /// Tries to make a group true, and keeps it where that was done; else the assignment is as it was.
    pub fn try_group(&mut self, group: u32)
        ensures { self.new ≡ self.old }
    {
        let at = group as usize;
        if at >= self.kept.len() {
            return;
        }
        self.open.clear();
        self.flipped.clear();
        let done = self.list_falsified(group).is_ok() && matches!(self.repair(group), Ok(true));
        if done {
            mark(&mut self.kept, at);
        } else {
            self.put_back();
        }
    }

    /// The groups that the assignment makes false.
    pub fn left_out(&self, alloc: Global) -> Result<GroupSet, AllocError> {
        let mut out = GroupSet::new(alloc);
        for at in 0..self.problem.groups() {
            if !self.standing.holds(at + 1) {
                out.push(at + 1)?;
            }
        }
        Ok(out)
    }

    /// The assignment, where it satisfies the background and all groups but these. This is tested of each clause. It shares
    /// words with the assignment that came last.
    pub fn shown(&mut self, alloc: Global, out: &GroupSet) -> Result<Option<Assign>, AllocError>
        ensures same { self.new ≡ self.old }
        ensures shown { IfOk result (λ shown. IfSome shown (λ assign. is_witness self.old (complement self.old.groups out.now) assign ≡ true)) }
    {
        let total = self.occurrences.total();
        self.count(total);
        let inside = out.complement(alloc, self.problem.groups())?;
        let assign = self.standing.assignment(alloc, self.problem.vars())?;
        let assign = sharing(assign, &self.start);
        Ok(tested(&self.problem, &inside, assign))
    }

    fn count(&mut self, looks: usize)
        ensures { self.new ≡ self.old }
    {
        self.work = self.work.saturating_add(looks as u64);
    }

    fn flip(&mut self, var: u32)
        ensures { self.new ≡ self.old }
    {
        let both = self.occurrences.made_true_by(var, true).len();
        let other = self.occurrences.made_true_by(var, false).len();
        self.standing.flip(&self.occurrences, var);
        self.count(both.saturating_add(other));
    }

    // Lists the clauses of a group that are falsified.
    fn list_falsified(&mut self, group: u32) -> Result<(), AllocError>
        ensures { self.new ≡ self.old }
    {
        let mut looks = 0usize;
        for placed in self.problem.places(group) {
            looks = looks.saturating_add(1);
            if self.standing.true_lits(placed.at) == 0 {
                self.open.push(placed.at)?;
            }
        }
        self.count(looks);
        Ok(())
    }

    // Makes the listed clauses true, and those that become falsified by that. It tells whether that was done.
    fn repair(&mut self, group: u32) -> Result<bool, AllocError>
        ensures { self.new ≡ self.old }
    {
        for _ in 0..u32::MAX {
            let Some(clause) = self.open.pop() else {
                return Ok(true);
            };
            if self.standing.true_lits(clause) == 0 {
                let Some(choice) = self.cheapest(clause, group) else {
                    return Ok(false);
                };
                self.count(choice.looks);
                self.flip_for(choice.var, group)?;
            }
        }
        Ok(false)
    }

    // The variable of a falsified clause that falsifies fewest others, where flips are left for these.
    fn cheapest(&self, clause: u32, group: u32) -> Option<Choice> {
        let at = clause as usize;
        let left = MOST_FLIPS.saturating_sub(self.flipped.len());
        if at >= self.problem.len() || left == 0 {
            return None;
        }
        let mut choice = Choice {
            var: 0,
            broken: left,
            looks: 0,
        };
        for lit in self.problem.clause(at).lits.as_slice() {
            let var = lit.var();
            if !has(self.flipped.as_slice(), var) {
                let lost = self.occurrences.made_true_by(var, !lit.is_positive());
                let broken = self.broken_among(lost, group, choice.broken);
                choice.weigh(var, broken, lost.len());
            }
        }
        if choice.broken < left {
            Some(choice)
        } else {
            None
        }
    }

    // How many of these clauses would be falsified if they lost a literal, up to so many.
    fn broken_among(&self, clauses: &[u32], group: u32, most: usize) -> usize {
        let mut broken = 0usize;
        for clause in clauses {
            if self.standing.true_lits(*clause) == 1 && self.matters(*clause, group) {
                broken = broken.saturating_add(1);
                if broken >= most {
                    return broken;
                }
            }
        }
        broken
    }

    // Whether a clause may not be falsified while a group is tried.
    fn matters(&self, clause: u32, group: u32) -> bool {
        let of = self.standing.group(clause);
        of == group || self.kept.get(of as usize) == Some(&true)
    }

    // Flips a variable, and lists the clauses that are falsified by that.
    fn flip_for(&mut self, var: u32, group: u32) -> Result<(), AllocError>
        ensures { self.new ≡ self.old }
    {
        self.flipped.push(var)?;
        self.flip(var);
        let lost = !self.standing.value(var);
        for clause in self.occurrences.made_true_by(var, lost) {
            if is_lost(&self.standing, &self.kept, *clause, group) {
                self.open.push(*clause)?;
            }
        }
        Ok(())
    }

    fn put_back(&mut self)
        ensures { self.new ≡ self.old }
    {
        for _ in 0..MOST_FLIPS {
            let Some(var) = self.flipped.pop() else {
                return;
            };
            self.flip(var);
        }
    }
}

// Whether a clause is falsified that may not be while a group is tried.
fn is_lost(standing: &Standing, kept: &[bool], clause: u32, group: u32) -> bool {
    let of = standing.group(clause);
    let matters = of == group || kept.get(of as usize) == Some(&true);
    matters && standing.true_lits(clause) == 0
}

// The assignment, which shares words with another one, if there is one.
fn sharing(assign: Assign, other: &Option<Assign>) -> Assign
    ensures { result ≡ assign }
{
    let mut assign = assign;
    if let Some(other) = other {
        assign.share(other);
    }
    assign
}

// Marks the groups that are true.
fn keep_true(kept: &mut [bool], standing: &Standing) {
    for at in 0..kept.len() {
        kept[at] = match u32::try_from(at) {
            Ok(group) => standing.holds(group),
            Err(_) => false,
        };
    }
}

/// The assignment, where it makes each clause of the background and of the set true.
pub fn tested(problem: &Problem, set: &GroupSet, assign: Assign) -> Option<Assign>
    ensures { IfSome result (λ shown. is_witness problem.now set.now shown ≡ true) }
{
    if assign.len() == problem.vars() as usize && problem.holds(set, &assign) {
        return Some(assign);
    }
    None
}

fn mark(marks: &mut [bool], at: usize) {
    if at < marks.len() {
        marks[at] = true;
    }
}

fn has(vars: &[u32], var: u32) -> bool {
    for other in vars {
        if *other == var {
            return true;
        }
    }
    false
}
