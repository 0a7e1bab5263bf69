//! Which learnt clauses are forgotten.
//!
//! A learnt clause that no longer helps still costs a visit wherever one of its watched literals becomes false. So
//! between searches, at level 0, where many more are live than have to stay, those go that are used least (Goldberg and
//! Novikov 2002, Eén and Sörensson 2003), and where choices are positive only those that are longer than the live learnt
//! ones are in the mean, the oldest first, until no more may go. The walk over all clauses is worth it only where some
//! hundreds can go at once, and is not made again before some hundreds more are learnt: many may have to stay.
//!
//! One search of the oracle may learn thousands. So at a restart it forgets likewise: it goes back to level 0, and then decides
//! the assumed literals again.
//!
//! A clause of which no literal is true forces none, so no value of level 0 rests on it: it is neither a reason nor the
//! clause of a unit step. Clauses that are satisfied at level 0 are passed over; they are never visited in any case.
ghost use Rattle.std.specs.Prelude.{◌≡◌, ℕ, ℤ, List, true, false, length, OnOk};
ghost use Rattle.sat_base.specs.Literals.{AreLiterals, IsLiteral};
ghost use Rattle.sat_base.specs.Members.{In};
ghost use Rattle.clause_store.specs.Clauses.{IsId};
ghost use Rattle.trail_book.specs.Trail.{trues};
ghost use Rattle.cdcl_core.specs.Answers.{IsHonestlyPaid};
ghost use Rattle.cdcl_core.specs.Search.{IsReady, IsSearch};
ghost use Rattle.cdcl_core.specs.Forgetting.{IsStaleAtRoot, IsIdle};

use crate::search::Search;
use lrat_steps::{StepKind, may_forget};
use propagate::rebuild;
use sat_base::Lit;
use std::alloc::{AllocError, Global};
use trail_book::Trail;

// So many have to be live beyond those that stay, and learnt since the last walk, before the clauses are looked at.
const EXCESS: u64 = 500;

/// Forgets learnt clauses, where many more are live than have to stay: it goes back to level 0 then.
pub fn forget(alloc: Global, search: &mut Search) -> Result<(), AllocError>
    requires ready { IsReady search.old }
    ensures ready { OnOk result (IsReady search.new) }
    ensures search { OnOk result ((assumed : List ℤ) → IsSearch search.old assumed → IsSearch search.new assumed) }
    ensures paid { (left : ℕ) → IsHonestlyPaid search.old.log search.new.log left left }
    ensures vars { search.new.trail.vars ≡ search.old.trail.vars }
    ensures touched { search.new.trail.touched ≡ search.old.trail.touched }
    ensures true_first { search.new.true_first ≡ search.old.true_first }
{
    let live = search.log.live_learned();
    let learned = search.log.learned();
    if live < EXCESS || learned.saturating_sub(search.walked) < EXCESS {
        return Ok(());
    }
    if !may_forget(live - EXCESS, learned) {
        return Ok(());
    }
    search.to_root();
    let limit = limit_of(alloc, search, live, learned)?;
    forget_poor(search, limit)?;
    rebuild(&mut search.store, &search.trail);
    search.walked = learned;
    Ok(())
}

impl Search {
    /// Forgets learnt clauses within a search, right after a restart, but not where choices are positive only.
    pub fn forget_at_restart(&mut self, alloc: Global) -> Result<(), AllocError>
        requires ready { IsReady self.old }
        ensures search { OnOk result ((assumed : List ℤ) → IsSearch self.old assumed → IsSearch self.new assumed) }
        ensures paid { (left : ℕ) → IsHonestlyPaid self.old.log self.new.log left left }
        ensures vars { self.new.trail.vars ≡ self.old.trail.vars }
        ensures touched { self.new.trail.touched ≡ self.old.trail.touched }
        ensures true_first { self.new.true_first ≡ self.old.true_first }
    {
        if self.true_first || self.conflicts > 0 {
            return Ok(());
        }
        forget(alloc, self)
    }
}

// The number by which it is known which clauses go.
fn limit_of(alloc: Global, search: &Search, live: u64, learned: u64) -> Result<u64, AllocError>
    requires { IsStaleAtRoot search.now }
{
    if search.true_first {
        return Ok(mean_length(search));
    }
    let mut activities = activities_of(alloc, search)?;
    activities.sort_unstable();
    Ok(last_to_go(activities.as_slice(), live, learned))
}

// How much those clauses are used that may go.
fn activities_of(alloc: Global, search: &Search) -> Result<Vec<u64>, AllocError>
    requires { IsStaleAtRoot search.now }
{
    let mut activities = Vec::new(alloc);
    let mut id = 0;
    while id < search.store.len() {
        id += 1;
        if may_go(search, id) {
            activities.push(search.usage.of(id))?;
        }
    }
    Ok(activities)
}

// The last of these numbers, one for a clause, that is of a clause which may go behind those before it.
fn last_to_go(activities: &[u64], live: u64, learned: u64) -> u64 {
    let mut last = 0;
    for (gone, activity) in activities.iter().enumerate() {
        if !may_forget(live.saturating_sub(gone as u64), learned) {
            return last;
        }
        last = *activity;
    }
    last
}

// Whether the clause is one of those that go: it is longer than the limit, or used no more.
fn is_poor(search: &Search, id: u64, limit: u64) -> bool
    requires { IsId search.now.store.clauses id }
{
    if search.true_first {
        search.store.lits(id).len() as u64 > limit
    } else {
        search.usage.of(id) <= limit
    }
}

// How many literals the live learnt clauses have in the mean.
fn mean_length(search: &Search) -> u64
    requires { IsStaleAtRoot search.now }
{
    let mut count: u64 = 1;
    let mut literals: u64 = 0;
    let mut id = 0;
    while id < search.store.len() {
        id += 1;
        if is_learnt(search, id) {
            literals = literals.saturating_add(search.store.lits(id).len() as u64);
            count = count.saturating_add(1);
        }
    }
    literals / count.max(1)
}

// Whether the clause is learnt and live.
fn is_learnt(search: &Search, id: u64) -> bool
    requires stale { IsStaleAtRoot search.now }
    requires id { IsId search.now.store.clauses id }
{
    matches!(search.log.kind(id), StepKind::Learned) && search.store.is_live(id)
}

// Forgets clauses by this limit, the oldest first, as long as some may go.
fn forget_poor(search: &mut Search, limit: u64) -> Result<(), AllocError>
    requires stale { IsStaleAtRoot search.old }
    ensures stale { OnOk result (IsStaleAtRoot search.new) }
    ensures paid { (left : ℕ) → IsHonestlyPaid search.old.log search.new.log left left }
    ensures vars { search.new.trail.vars ≡ search.old.trail.vars }
    ensures touched { search.new.trail.touched ≡ search.old.trail.touched }
    ensures levels { search.new.assumed_levels ≡ search.old.assumed_levels }
    ensures reached { search.new.assumed_true ≡ search.old.assumed_true }
    ensures true_first { search.new.true_first ≡ search.old.true_first }
{
    let mut id = 0;
    while id < search.store.len() {
        id += 1;
        if is_poor(search, id, limit) && may_go(search, id) {
            forget_one(search, id)?;
        }
    }
    Ok(())
}

// Forgets one clause, in the log and in the store.
fn forget_one(search: &mut Search, id: u64) -> Result<(), AllocError>
    requires stale { IsStaleAtRoot search.old }
    requires idle { IsIdle search.old id }
    ensures stale { OnOk result (IsStaleAtRoot search.new) }
    ensures paid { (left : ℕ) → IsHonestlyPaid search.old.log search.new.log left left }
    ensures vars { search.new.trail.vars ≡ search.old.trail.vars }
    ensures touched { search.new.trail.touched ≡ search.old.trail.touched }
    ensures levels { search.new.assumed_levels ≡ search.old.assumed_levels }
    ensures reached { search.new.assumed_true ≡ search.old.assumed_true }
    ensures true_first { search.new.true_first ≡ search.old.true_first }
    ensures len { length search.new.store.clauses ≡ length search.old.store.clauses }
{
    search.log.forget(id)?;
    search.store.forget(id);
    Ok(())
}

// Whether the clause is learnt and live, may be forgotten, and has no literal that is true.
fn may_go(search: &Search, id: u64) -> bool
    requires stale { IsStaleAtRoot search.now }
    requires id { IsId search.now.store.clauses id }
    ensures { result ≡ true → IsIdle search.now id }
{
    // Where a clause is false at level 0 no search goes on.
    let None = search.store.false_id() else {
        return false;
    };
    let StepKind::Learned = search.log.kind(id) else {
        return false;
    };
    if !search.store.is_live(id) {
        return false;
    }
    if !may_forget(search.log.live_learned(), search.log.learned()) {
        return false;
    }
    is_untrue(&search.trail, search.store.lits(id))
}

// Whether no literal of the clause is true.
fn is_untrue(trail: &Trail, clause: &[Lit]) -> bool
    requires { AreLiterals trail.now.vars clause.now }
    ensures { result ≡ true → (lit : ℤ) → In lit clause.now → ¬ In lit (trues trail.now.entries) }
{
    for lit in clause {
        if is_true(trail, *lit) {
            return false;
        }
    }
    true
}

fn is_true(trail: &Trail, lit: Lit) -> bool
    requires { IsLiteral trail.now.vars lit }
    ensures no { result ≡ false → ¬ In lit (trues trail.now.entries) }
{
    let _vars = trail.vars(); // No literal is both true and false.
    match trail.value(lit) {
        None => false,
        Some(true) => true,
        Some(false) => false,
    }
}
