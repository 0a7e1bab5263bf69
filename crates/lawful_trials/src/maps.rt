//! A map of all sets of groups: `map 4 100` makes the learning solver's, of so many groups, with so many units in the purse,
//! and `map roles 4 100` the one for roles. Its moves:
//!
//! | move | what it does, and what is printed |
//! |---|---|
//! | `seed` | searches for a seed: `set`, `none left` or `dry` |
//! | `seed size` | the same with how many groups the seed has |
//! | `block up 1 2`, `block down 1` | takes out the sets that hold the set, or that have no group of it |
//! | `left-out` | the groups that some seed so far left out |
//! | `proof` | the clause that was derived where no set was left |
//! | `left` | how many units are left |
//! | `inputs`, `learnt`, `steps` | at the end: what its log has |
//!
//! Before `set` is printed each block is tried on the seed: `wrong` is one that a block takes out.
ghost use Rattle.std.specs.Prelude.{◌≡◌, ◌<◌, ◌^◌, true, IfOk};
ghost use Rattle.evidence_rec.specs.Seeding.{EngineState, new_engine};

use crate::asking::end;
use evidence_rec::{MapEngine, Seed};
use gm_base::{Derivation, GroupSet, Purse, Side};
use lawful_fakes::Lacking;
use power_map::PowerMap;
use std::alloc::{AllocError, Global};
use trial_script::Step;
use trial_sets::{
    Mover, Played, has_word, make_moves, number_at, played, say, say_count, say_numbers, say_proof,
    set_in,
};

/// Searches a map of so many groups.
struct Search<M: MapEngine> {
    map: M,
    groups: u32,
    purse: Purse,
    blocks: Vec<(Side, GroupSet)>,
    // The groups that some seed left out.
    left_out: GroupSet,
    proof: Option<Derivation>,
    ghost of: { (M.state map).groups ≡ groups },
}

pub fn play_map(alloc: Global, step: &Step<'_>, out: &mut String) -> Played {
    let groups = number_at(alloc, step, 0, 0)?;
    let units = u64::from(number_at(alloc, step, 0, 1)?);
    if groups >= 1 << 31 {
        return Err(Lacking::Evidence);
    }
    let map = map_of(alloc, groups, has_word(step, "roles"))?;
    explore(alloc, map, groups, units, step, out)
}

/// A map of so many groups, for roles or not.
fn map_of(alloc: Global, groups: u32, for_roles: bool) -> Result<PowerMap, AllocError>
    requires { groups < 2 ^ 31 }
    ensures { IfOk result (λ map. map ≡ new_engine groups) }
{
    if for_roles {
        PowerMap::for_roles(alloc, groups)
    } else {
        PowerMap::new(alloc, groups)
    }
}

/// Makes the moves of a call with a map, and tells of its log in the end. It is given up before anything else ends the call,
/// so that no proof has to drop one.
fn explore<M: MapEngine>(
    alloc: Global,
    map: M,
    groups: u32,
    units: u64,
    step: &Step<'_>,
    out: &mut String,
) -> Played
    requires { (M.state map).groups ≡ groups }
{
    let mut search = Search {
        map,
        groups,
        purse: Purse { left: units },
        blocks: Vec::new(alloc),
        left_out: GroupSet::new(alloc),
        proof: None,
    };
    let made = make_moves(alloc, &mut search, step, out);
    let Search {
        map,
        groups: _,
        purse: _,
        blocks: _,
        left_out: _,
        proof: _,
    } = search;
    let log = map.into_log();
    end(made, &log, step, out)
}

impl<M: MapEngine> Mover for Search<M> {
    fn make_move(&mut self, alloc: Global, step: &Step<'_>, out: &mut String) -> Played {
        match step.word(0) {
            "seed" => self.find(alloc, has_word(step, "size"), out),
            "block" => self.block(alloc, step),
            "left-out" => played(say_numbers(out, "left out", self.left_out.as_slice())),
            "proof" => self.tell_proof(alloc, out),
            "left" => played(say_count(out, "left", self.purse.left)),
            _ => Err(Lacking::Evidence),
        }
    }
}

impl<M: MapEngine> Search<M> {
    /// Searches for a seed.
    fn find(&mut self, alloc: Global, has_size: bool, out: &mut String) -> Played {
        match self.map.seed(alloc, 0, &mut self.purse)? {
            Seed::Set(set) => self.add_seed(alloc, &set, has_size, out),
            Seed::Empty => self.add_proof(alloc, out),
            Seed::Dry => played(say(out, "dry")),
        }
    }

    /// Keeps the derivation that no set is left.
    fn add_proof(&mut self, alloc: Global, out: &mut String) -> Played
        requires { (M.state self.old.map).exhausted ≡ true }
    {
        self.proof = Some(self.map.empty_proof(alloc)?);
        played(say(out, "none left"))
    }

    fn tell_proof(&self, alloc: Global, out: &mut String) -> Played {
        match &self.proof {
            Some(proof) => played(say_proof(alloc, out, proof, self.blocks.len())),
            None => Err(Lacking::Evidence),
        }
    }

    fn add_seed(
        &mut self,
        alloc: Global,
        seed: &GroupSet,
        has_size: bool,
        out: &mut String,
    ) -> Played {
        self.tell_seed(seed, has_size, out)?;
        played(self.add_left_out(alloc, seed))
    }

    fn tell_seed(
        &self,
        seed: &GroupSet,
        has_size: bool,
        out: &mut String,
    ) -> Result<(), AllocError> {
        if self.blocks.iter().any(|block| takes_out(block, seed)) {
            return say(out, "wrong");
        }
        if has_size {
            say_count(out, "set of", seed.len() as u64)
        } else {
            say(out, "set")
        }
    }

    /// Adds the groups that a seed leaves out.
    fn add_left_out(&mut self, alloc: Global, seed: &GroupSet) -> Result<(), AllocError> {
        let mut never = self.left_out.complement(alloc, self.groups)?;
        for group in seed.complement(alloc, self.groups)?.as_slice() {
            never = never.without(alloc, *group)?;
        }
        self.left_out = never.complement(alloc, self.groups)?;
        Ok(())
    }

    fn block(&mut self, alloc: Global, step: &Step<'_>) -> Played {
        match step.word(1) {
            "up" => self.block_on(alloc, step, Side::Up),
            "down" => self.block_on(alloc, step, Side::Down),
            _ => Err(Lacking::Evidence),
        }
    }

    fn block_on(&mut self, alloc: Global, step: &Step<'_>, side: Side) -> Played {
        let set = set_in(alloc, step, 0, self.groups)?;
        self.map.block(alloc, &set, side)?;
        played(self.blocks.push((side, set)).map_err(AllocError::from))
    }
}

/// Whether a block takes out the set: it has all groups of a conflict, or none of a correction.
fn takes_out(block: &(Side, GroupSet), set: &GroupSet) -> bool {
    for group in block.1.as_slice() {
        if set.contains(*group) != (block.0 == Side::Up) {
            return false;
        }
    }
    true
}
