//! Conflicts.
//!
//! A falsified clause ends the search where no choice stands, with a core, and where no unit is left. Otherwise a
//! clause is learnt from it, its unit is paid, and the trail goes back to the level where the learnt clause is unit, so
//! that its first literal follows there. The step is logged before the unit is paid, and nothing after that can fail.
//! Where choices are positive only, redundant literals are not looked for: there few would go.
ghost use Rattle.std.specs.Prelude.{◌≡◌, ◌⊎◌, ℕ, ◌+◌, ◌<◌, ◌≤◌, ℤ, neg_ℤ, IfOk, OnOk};
ghost use Rattle.sat_base.specs.Members.{In};
ghost use Rattle.sat_base.specs.Units.{IsFalsified};
ghost use Rattle.trail_book.specs.Trail.{trues, top};
ghost use Rattle.learn_step.specs.Reasons.{IsFalse};
ghost use Rattle.learn_step.specs.Learnt.{start_of};
ghost use Rattle.cdcl_core.specs.Answers.{IsHonestlyPaid, IsRefuted};
ghost use Rattle.cdcl_core.specs.Search.{IsSearch, IsRound};

use crate::activity::bump_conflict;
use crate::entrance::enter_learnt;
use crate::search::Search;
use crate::solved::Solved;
use crate::steps::{add_step, log_core};
use crate::usage::Usage;
use learn_step::{Origin, learn};
use lrat_steps::LogStep;
use propagate::back_to;
use sat_base::{Lit, Purse};
use std::alloc::{AllocError, Global};

// How many assumed literals are known to be true after going back to a level. Below a choice they all are.
fn reached_at(level: u32, assumed_levels: u32, reached: usize) -> usize
    ensures { (result ≡ 0) ⊎ ((assumed_levels ≤ level) × (result ≡ reached)) }
{
    if level < assumed_levels { 0 } else { reached }
}

// Counts the use of the clauses from which one was learnt. Where choices are positive only, it doesn't matter.
fn note_use(usage: &mut Usage, true_first: bool, hints: &[u64], learnt: u64) {
    if !true_first {
        usage.raise_all(hints, learnt);
    }
}

impl Search {
    /// Ends where only assumed literals are decided or no unit is left, and learns from the conflict otherwise.
    pub fn on_conflict(
        &mut self,
        alloc: Global,
        assumed: &[Lit],
        purse: &mut Purse,
        id: u64,
    ) -> Result<Option<Solved>, AllocError>
        requires search { IsSearch self.old assumed.now }
        requires falsified { IsFalsified self.old.store.clauses (trues self.old.trail.entries) id }
        ensures round { IfOk result (λ answer. IsRound self.old self.new assumed.now purse.old.left purse.new.left answer) }
        ensures paid { IsHonestlyPaid self.old.log self.new.log purse.old.left purse.new.left }
        ensures vars { self.new.trail.vars ≡ self.old.trail.vars }
        ensures touched { self.new.trail.touched ≡ self.old.trail.touched }
        ensures true_first { self.new.true_first ≡ self.old.true_first }
    {
        if self.trail.top() <= self.assumed_levels {
            let core = self.refute(alloc, assumed, Origin::Conflict(id))?;
            return Ok(Some(Solved::Unsat(core)));
        }
        if purse.left == 0 {
            return Ok(Some(Solved::Dry));
        }
        self.learn_from(alloc, assumed, purse, id)?;
        self.count_conflict();
        self.forget_at_restart(alloc)?;
        Ok(None)
    }

    // Learns a clause, and goes back to the level where it forces its first literal.
    fn learn_from(
        &mut self,
        alloc: Global,
        assumed: &[Lit],
        purse: &mut Purse,
        id: u64,
    ) -> Result<(), AllocError>
        requires search { IsSearch self.old assumed.now }
        requires falsified { IsFalsified self.old.store.clauses (trues self.old.trail.entries) id }
        requires choice { self.old.assumed_levels < top self.old.trail.entries }
        requires purse { 0 < purse.old.left }
        ensures search { OnOk result (IsSearch self.new assumed.now) }
        ensures unit { OnOk result (purse.new.left + 1 ≡ purse.old.left) }
        ensures paid { IsHonestlyPaid self.old.log self.new.log purse.old.left purse.new.left }
        ensures vars { self.new.trail.vars ≡ self.old.trail.vars }
        ensures touched { self.new.trail.touched ≡ self.old.trail.touched }
        ensures true_first { self.new.true_first ≡ self.old.true_first }
    {
        let learnt = learn(alloc, &self.store, &self.trail, id, !self.true_first)?;
        let lits: &[Lit] = &learnt.lits;
        let hints: &[u64] = &learnt.hints;
        bump_conflict(&self.store, &mut self.trail, lits, hints);
        let step = LogStep::Learned(&learnt.lits, &learnt.hints);
        let reason = add_step(&mut self.log, &mut self.store, step)?;
        note_use(&mut self.usage, self.true_first, hints, reason);
        purse.left -= 1;
        self.assumed_true = reached_at(learnt.back_level, self.assumed_levels, self.assumed_true);
        self.assumed_levels = self.assumed_levels.min(learnt.back_level);
        back_to(&mut self.store, &mut self.trail, learnt.back_level);
        let first = learnt.lits[0];
        enter_learnt(
            &mut self.store,
            &mut self.trail,
            reason,
            &learnt.lits,
            first,
        );
        Ok(())
    }

    /// Logs the core of what is false, where only assumed literals are decided.
    pub fn refute(
        &mut self,
        alloc: Global,
        assumed: &[Lit],
        origin: Origin,
    ) -> Result<u64, AllocError>
        requires search { IsSearch self.old assumed.now }
        requires levels { top self.old.trail.entries ≤ self.old.assumed_levels }
        requires is_false { IsFalse self.old.store.clauses self.old.trail.entries origin }
        requires start { (lit : ℤ) → In lit (start_of origin) → In (neg_ℤ lit) assumed.now }
        ensures refuted { IfOk result (λ id. IsRefuted self.new.log assumed.now id) }
        ensures search { OnOk result (IsSearch self.new assumed.now) }
        ensures paid { (left : ℕ) → IsHonestlyPaid self.old.log self.new.log left left }
        ensures vars { self.new.trail.vars ≡ self.old.trail.vars }
        ensures touched { self.new.trail.touched ≡ self.old.trail.touched }
        ensures true_first { self.new.true_first ≡ self.old.true_first }
    {
        let id = log_core(alloc, &mut self.log, &mut self.store, &self.trail, origin)?;
        Ok(id)
    }
}
