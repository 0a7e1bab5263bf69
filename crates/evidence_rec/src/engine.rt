//! Map engines.
//!
//! A map engine knows which sets of groups are explored. It is told blocks, each the set of a conflict or of a correction,
//! and finds a set that no block explores. In its clauses group g is variable g, and the block of a conflict is "some group
//! of it is out", that of a correction "some group of it is in".
use gm_base::{Derivation, GroupSet, Purse, Side};
use lrat_steps::Log;
use std::alloc::{AllocError, Global};

/// What a map engine finds.
#[derive(Drop)]
pub enum Seed {
    /// A set that no block explores.
    Set(GroupSet),
    /// Each set is explored.
    Empty,
    /// The purse is empty, and the search stands before a conflict from which it could learn.
    Dry,
}

/// Finds sets of groups that nothing explores yet.
pub trait MapEngine {
    ghost use Rattle.std.specs.Prelude.{◌≡◌, ◌||◌, Bool, true, OnOk, OnErr, IfOk};
    ghost use Rattle.gm_base.specs.Sets.{IsSubset, all_groups};
    ghost use Rattle.gm_base.specs.Explored.{block_of};
    ghost use Rattle.evidence_rec.specs.Seeding.{EngineState, TellsSeed, IsSearched, IsHonestMap, HasModels, blocked, is_empty, shows_all_explored};

    /// All that it tells.
    ghost state: { Self → EngineState };

    ghost TOPS: { Bool };

    /// Whether no set that is left properly holds a seed.
    const TOPS: bool;

    /// Takes out the sets that hold the set, or those that have no group of it.
    fn block(&mut self, alloc: Global, set: &GroupSet, side: Side) -> Result<(), AllocError>
        requires { IsSubset set.now (all_groups (state self.old).groups) }
        ensures ok { OnOk result (state self.new ≡ blocked (state self.old) (block_of side set.now)) }
        ensures err { OnErr result (state self.new ≡ state self.old) }
        ensures honest { IsHonestMap (state self.new).blocks (state self.new).log }
        ensures models { HasModels (state self.new) };

    /// Finds a set that no block explores, and where `TOPS` is true one that no other such set holds. `turn` turns the
    /// order in which groups are decided.
    fn seed(&mut self, alloc: Global, turn: u64, purse: &mut Purse) -> Result<Seed, AllocError>
        ensures answer { IfOk result (λ answer. TellsSeed TOPS (state self.new) purse.new.left answer) }
        ensures exhausted { IfOk result (λ answer. (state self.new).exhausted ≡ ((state self.old).exhausted || is_empty answer)) }
        ensures err { OnErr result ((state self.new).exhausted ≡ (state self.old).exhausted) }
        ensures spent { IsSearched (state self.old) (state self.new) purse.old.left purse.new.left }
        ensures honest { IsHonestMap (state self.new).blocks (state self.new).log }
        ensures models { HasModels (state self.new) };

    /// A derivation of the empty clause from the block clauses, after an answer that each set is explored.
    fn empty_proof(&self, alloc: Global) -> Result<Derivation, AllocError>
        requires { (state self.now).exhausted ≡ true }
        ensures { IfOk result (λ d. shows_all_explored (state self.now).groups (state self.now).blocks d ≡ true) };

    /// The log of all that was derived.
    fn into_log(self) -> Log
        ensures log { result ≡ (state self).log }
        ensures honest { IsHonestMap (state self).blocks (state self).log };
}
