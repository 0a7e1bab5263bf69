//! The search.
//!
//! Conflict-driven clause learning (Marques-Silva and Sakallah 1999), in rounds: propagate, and then either learn a
//! clause from the conflict and go back, or decide. Assumed literals are decided first, each at a level of its own (Eén
//! and Sörensson 2003), and the levels above them are choices. In each round the following holds.
//!
//! - The clauses of the store are those of the log's steps, and the log is honest.
//! - A literal of the trail was decided, or the clause of its reason and a live clause force it.
//! - **Before each decision nothing was left to propagate:** no live clause was falsified or unit.
//! - What propagation keeps of the watched literals (`propagate/specs/Watches.antt`): it is from there that nothing is left.
//! - A decision up to level `assumed_levels` is an assumed literal. Any other one is a choice: before it all assumed ones were
//!   true, and it is a positive literal where that is asked for.
//!
//! Why each learnt clause is new, so that no unit of the purse is spent on one that is known: it has one literal of the
//! top level, so all its others were false before the last decision. A live clause within it would have been falsified
//! or unit there. And why the third fact stays true: after going back, two literals of the learnt clause have no value
//! below the level that is left, the one that it forces and one of that level.
//!
//! Why a core follows: while no level is a choice, what is falsified is so by propagation from assumed literals alone.
//! Where a choice stands and no unit is left, the trail itself shows that the clauses are undecided.
//!
//! Why a model under no assumed literals is greatest where choices are positive: a true literal of it was decided, and is
//! positive, or is forced by earlier ones. So a model with all of its true variables agrees with it, literal by literal along the trail.
//! What no clause has against its default is not on the trail, unless it was forced, and true in the model.
//!
//! It ends, since each round pays a unit or gives one more variable a value. A restart is part of a round that pays.
//!
//! It begins with the trail as the last search or clause left it (`resuming.rt`).
ghost use Rattle.std.specs.Prelude.{◌≡◌, ℕ, ◌≤◌, [], length, true, IfOk, OnOk};
ghost use Rattle.sat_base.specs.Literals.{AreLiterals};
ghost use Rattle.trail_book.specs.Trail.{trues, IsTrail};
ghost use Rattle.propagate.specs.Propagation as propagation;
ghost use Rattle.propagate.specs.Propagation.{Grows, IsDone};
ghost use Rattle.propagate.specs.Watches.{IsKept, KeepsClauses};
ghost use Rattle.lrat_steps.specs.Log.{inputs_of};
ghost use Rattle.cdcl_core.specs.State.{AreTouched};
ghost use Rattle.cdcl_core.specs.Answers.{IsConsistent, IsHonestlyPaid, Tells, IsGreatest};
ghost use Rattle.cdcl_core.specs.Search.{IsSearch, IsReady, IsRound, Ends};

use crate::plan::Plan;
use crate::solved::Solved;
use crate::usage::Usage;
use clause_store::Store;
use lrat_steps::Log;
use propagate::{Propagated, propagate, propagate_parking};
use sat_base::{Lit, Purse};
use std::alloc::{AllocError, Global};
use trail_book::Trail;

/// What a search works on.
#[derive(Drop)]
pub struct Search {
    pub log: Log,
    pub store: Store,
    pub trail: Trail,
    /// How many literals of level 0, the oldest ones, stand in a clause alone: their reason or a unit step.
    pub rooted: u32,
    /// The levels up to this one are assumed literals, those above it are choices.
    pub assumed_levels: u32,
    /// The assumed literals before this one are true.
    pub assumed_true: usize,
    /// How many conflicts stood since the search began, or since the last restart.
    pub conflicts: u32,
    /// Whether watches are parked.
    pub parks: bool,
    /// How many clauses had been learnt when they were last walked over for forgetting.
    pub walked: u64,
    /// Whether choices are positive literals only.
    pub true_first: bool,
    /// What is decided first otherwise.
    pub plan: Plan,
    /// How much clauses are used, where that is asked for.
    pub usage: Usage,
}

impl Search {
    /// Searches under the assumed literals, from the trail as it stands. The trail stays as the answer leaves it.
    pub fn run(
        &mut self,
        alloc: Global,
        assumed: &[Lit],
        turn: u64,
        purse: &mut Purse,
    ) -> Result<Solved, AllocError>
        requires ready { IsReady self.old }
        requires literals { AreLiterals self.old.trail.vars assumed.now }
        requires consistent { IsConsistent assumed.now }
        requires touched { AreTouched self.old.true_first self.old.trail.touched (inputs_of self.old.log) }
        ensures answer { IfOk result (λ answer. Tells self.new.trail.vars self.new.log assumed.now purse.new.left answer) }
        ensures greatest { self.old.true_first ≡ true → assumed.now ≡ [] → IfOk result (λ answer. IsGreatest self.new.trail.vars self.new.log answer) }
        ensures ready { OnOk result (IsReady self.new) }
        ensures paid { IsHonestlyPaid self.old.log self.new.log purse.old.left purse.new.left }
        ensures vars { self.new.trail.vars ≡ self.old.trail.vars }
        ensures touched { self.new.trail.touched ≡ self.old.trail.touched }
        ensures true_first { self.new.true_first ≡ self.old.true_first }
    {
        self.trail.start_at(turn);
        self.resume(assumed);
        self.conflicts = 0;
        self.parks = self.true_first;
        self.plan.begin(self.true_first);
        let answer = self.search(alloc, assumed, purse)?;
        Ok(answer)
    }

    fn search(
        &mut self,
        alloc: Global,
        assumed: &[Lit],
        purse: &mut Purse,
    ) -> Result<Solved, AllocError>
        requires search { IsSearch self.old assumed.now }
        requires literals { AreLiterals self.old.trail.vars assumed.now }
        requires consistent { IsConsistent assumed.now }
        requires touched { AreTouched self.old.true_first self.old.trail.touched (inputs_of self.old.log) }
        ensures ends { IfOk result (λ answer. Ends self.new assumed.now purse.new.left answer) }
        ensures paid { IsHonestlyPaid self.old.log self.new.log purse.old.left purse.new.left }
        ensures vars { self.new.trail.vars ≡ self.old.trail.vars }
        ensures touched { self.new.trail.touched ≡ self.old.trail.touched }
        ensures true_first { self.new.true_first ≡ self.old.true_first }
    {
        loop {
            if let Some(answer) = self.round(alloc, assumed, purse)? {
                return Ok(answer);
            }
        }
    }

    // Propagates, and then learns from the conflict or decides. Gives the answer where there is one.
    fn round(
        &mut self,
        alloc: Global,
        assumed: &[Lit],
        purse: &mut Purse,
    ) -> Result<Option<Solved>, AllocError>
        requires search { IsSearch self.old assumed.now }
        requires literals { AreLiterals self.old.trail.vars assumed.now }
        requires consistent { IsConsistent assumed.now }
        requires touched { AreTouched self.old.true_first self.old.trail.touched (inputs_of self.old.log) }
        ensures round { IfOk result (λ answer. IsRound self.old self.new assumed.now purse.old.left purse.new.left answer) }
        ensures paid { IsHonestlyPaid self.old.log self.new.log purse.old.left purse.new.left }
        ensures vars { self.new.trail.vars ≡ self.old.trail.vars }
        ensures touched { self.new.trail.touched ≡ self.old.trail.touched }
        ensures true_first { self.new.true_first ≡ self.old.true_first }
    {
        match self.spread(alloc, assumed)? {
            Propagated::Conflict(id) => self.on_conflict(alloc, assumed, purse, id),
            Propagated::Fixpoint => self.on_fixpoint(alloc, assumed),
        }
    }

    // Propagates, and at level 0 logs unit steps.
    fn spread(&mut self, alloc: Global, assumed: &[Lit]) -> Result<Propagated, AllocError>
        requires { IsSearch self.old assumed.now }
        ensures tells { IfOk result (λ told. propagation.Tells self.new.store.clauses (trues self.new.trail.entries) told) }
        ensures all_done { IfOk result (λ told. IsDone self.new.store self.new.trail told) }
        ensures search { OnOk result (IsSearch self.new assumed.now) }
        ensures grows { OnOk result (length self.old.trail.entries ≤ length self.new.trail.entries) }
        ensures paid { (left : ℕ) → IsHonestlyPaid self.old.log self.new.log left left }
        ensures vars { self.new.trail.vars ≡ self.old.trail.vars }
        ensures touched { self.new.trail.touched ≡ self.old.trail.touched }
        ensures true_first { self.new.true_first ≡ self.old.true_first }
    {
        let told = propagate_by(&mut self.store, &mut self.trail, self.parks);
        if self.trail.top() == 0 {
            self.log_units(alloc)?;
        }
        Ok(told)
    }
}

// Propagates, and parks watches where that is asked for.
fn propagate_by(store: &mut Store, trail: &mut Trail, parks: bool) -> Propagated
    requires { IsKept store.old trail.old }
    ensures kept { IsKept store.new trail.new }
    ensures grows { Grows store.old.clauses trail.old.entries trail.new.entries }
    ensures tells { propagation.Tells store.old.clauses (trues trail.new.entries) result }
    ensures all_done { IsDone store.new trail.new result }
    ensures clauses { KeepsClauses store.old store.new }
    ensures vars { trail.new.vars ≡ trail.old.vars }
    ensures touched { trail.new.touched ≡ trail.old.touched }
    ensures trail { IsTrail trail.new.vars trail.new.entries }
{
    if parks {
        propagate_parking(store, trail)
    } else {
        propagate(store, trail)
    }
}
