//! Oracles.
//!
//! An oracle answers whether the background and a set of groups can be satisfied, keeps the log of how it found out, and
//! derives each refutation from it.
use gm_base::{Assign, Derivation, GroupSet, Purse};
use lrat_steps::Log;
use std::alloc::{AllocError, Global};

/// What an oracle answers about a set of groups.
#[derive(Drop)]
pub enum Asked {
    /// An assignment that satisfies the background and the set.
    Sat(Assign),
    /// A part of the set that is unsatisfiable with the background.
    Unsat(GroupSet),
    /// The purse is empty, and the search stands before a conflict from which it could learn.
    Dry,
}

/// Answers questions about one problem.
pub trait Oracle {
    ghost use Rattle.std.specs.Prelude.{◌≡◌, ℕ, ◌+◌, ◌≤◌, true, List, Option, Some, None, IfOk, OnOk, OnErr, IsSome};
    ghost use Rattle.gm_base.specs.Sets.{IsSubset, all_groups, without, with_group};
    ghost use Rattle.gm_base.specs.Evidence.{refutes};
    ghost use Rattle.evidence_rec.specs.Asking.{OracleState, TellsAsked, IsSpent, IsHonestOver, refuted_by, asked_once};

    /// All that it tells.
    ghost state: { Self → OracleState };

    /// Asks whether the background and a set of groups can be satisfied.
    fn ask(
        &mut self,
        alloc: Global,
        set: &GroupSet,
        turn: u64,
        purse: &mut Purse,
    ) -> Result<Asked, AllocError>
        requires { IsSubset set.now (all_groups (state self.old).problem.groups) }
        ensures answer { IfOk result (λ answer. TellsAsked (state self.new) set.now purse.new.left answer) }
        ensures refuted { IfOk result (λ answer. (state self.new).refuted ≡ refuted_by answer) }
        ensures err { OnErr result ((state self.new).refuted ≡ None) }
        ensures asks { (state self.new).asks ≡ asked_once (state self.old).asks }
        ensures spent { IsSpent (state self.old) (state self.new) purse.old.left purse.new.left }
        ensures honest { IsHonestOver (state self.new).problem (state self.new).log };

    /// Asks the same of a set without one of its groups: the questions of shrinking. Who finds what is known by that group
    /// needs no look at the whole set.
    fn ask_without(
        &mut self,
        alloc: Global,
        set: &GroupSet,
        group: u32,
        turn: u64,
        purse: &mut Purse,
    ) -> Result<Asked, AllocError>
        requires { IsSubset set.now (all_groups (state self.old).problem.groups) }
        ensures answer { IfOk result (λ answer. TellsAsked (state self.new) (without set.now group) purse.new.left answer) }
        ensures refuted { IfOk result (λ answer. (state self.new).refuted ≡ refuted_by answer) }
        ensures asks { OnOk result ((state self.new).asks ≡ asked_once (state self.old).asks) }
        ensures at_most_once { (state self.new).asks ≤ (state self.old).asks + 1 }
        ensures spent { IsSpent (state self.old) (state self.new) purse.old.left purse.new.left }
        ensures honest { IsHonestOver (state self.old).problem (state self.old).log → IsHonestOver (state self.new).problem (state self.new).log }
    {
        let rest = set.without(alloc, group)?;
        self.ask(alloc, &rest, turn, purse)
    }

    /// Asks the same of a set with a group more: the questions of growing. Who finds what is known by that group needs no
    /// look at the whole set.
    fn ask_with(
        &mut self,
        alloc: Global,
        set: &GroupSet,
        group: u32,
        turn: u64,
        purse: &mut Purse,
    ) -> Result<Asked, AllocError>
        requires { IsSubset (with_group set.now group) (all_groups (state self.old).problem.groups) }
        ensures answer { IfOk result (λ answer. TellsAsked (state self.new) (with_group set.now group) purse.new.left answer) }
        ensures refuted { IfOk result (λ answer. (state self.new).refuted ≡ refuted_by answer) }
        ensures asks { OnOk result ((state self.new).asks ≡ asked_once (state self.old).asks) }
        ensures at_most_once { (state self.new).asks ≤ (state self.old).asks + 1 }
        ensures spent { IsSpent (state self.old) (state self.new) purse.old.left purse.new.left }
        ensures honest { IsHonestOver (state self.old).problem (state self.old).log → IsHonestOver (state self.new).problem (state self.new).log }
    {
        let more = set.with(alloc, group)?;
        self.ask(alloc, &more, turn, purse)
    }

    /// The derivation for the last answer, which was that a set is unsatisfiable.
    fn proof(&self, alloc: Global) -> Result<Derivation, AllocError>
        requires { IsSome (state self.now).refuted }
        ensures { IfOk result (λ d. (set : List ℕ) → (state self.now).refuted ≡ Some set → refutes (state self.now).problem set d ≡ true) };

    /// The log of all that was derived.
    fn into_log(self) -> Log
        ensures log { result ≡ (state self).log }
        ensures honest { IsHonestOver (state self).problem (state self).log };
}
