//! The groups that sets name, in the order in which they first do.
//!
//! Sets come one by one. Where groups are counted for a kind, only sets of the other kind name any.
ghost use Rattle.std.specs.Prelude.{◌≡◌, ◌++◌, [], IfOk, OnOk, OnErr};
ghost use Rattle.gm_base.specs.Sets.{IsSubset, all_groups};
ghost use Rattle.size_counter.specs.Known.{KnowsAll};
ghost use Rattle.size_counter.specs.Names.{alone_in, also, first_named};
ghost use Rattle.size_counter.specs.Levels.{level_by};

use crate::level::Level;
use crate::names::Names;
use gm_base::Kind;
use std::alloc::{AllocError, Global};
use std::collections::BTreeSet;
use std::marker::Model;

/// For a kind: the groups that sets of the other kind name, and those that stand alone in one.
#[derive(Drop)]
pub struct Naming {
    kind: Kind,
    names: Names,
    alone: Vec<u32>,
}

impl Model for Naming {
    ghost use Rattle.size_counter.specs.Names.{Naming as Seen};

    ghost Value = { Seen };

    ghost view = { λ n. record { kind = n.kind; named = n.names; alone = n.alone.items } };

    ghost use Rattle.size_counter.specs.Sizes.{AreDistinct};

    ghost invariant = { λ n. AreDistinct n.names };
}

impl Naming {
    /// Nothing is named. It takes no memory.
    pub fn new(alloc: Global, kind: Kind) -> Naming
        ensures { result ≡ record { kind = kind; named = []; alone = [] } }
    {
        Naming {
            kind,
            names: Names::new(alloc),
            alone: Vec::new(alloc),
        }
    }

    /// Adds what a set of some kind names.
    pub fn add(&mut self, kind: Kind, set: &[u32]) -> Result<(), AllocError>
        ensures ok { OnOk result (self.new ≡ also self.old kind set.now) }
        ensures err { OnErr result (self.new ≡ self.old) }
    {
        match (self.kind, kind) {
            (Kind::Conflict, Kind::Correction) => self.add_set(set),
            (Kind::Correction, Kind::Conflict) => self.add_set(set),
            (Kind::Conflict, Kind::Conflict) => Ok(()),
            (Kind::Correction, Kind::Correction) => Ok(()),
        }
    }

    // Adds what a set of the other kind names.
    fn add_set(&mut self, set: &[u32]) -> Result<(), AllocError>
        ensures ok { OnOk result (self.new
            ≡ record { kind = self.old.kind; named = first_named (self.old.named ++ set.now); alone = self.old.alone ++ alone_in set.now }) }
        ensures err { OnErr result (self.new ≡ self.old) }
    {
        let before = self.names.len();
        self.names.add_all(set)?;
        if set.len() != 1 {
            return Ok(());
        }
        match self.alone.push(set[0]) {
            Ok(()) => Ok(()),
            Err(_) => {
                self.names.cut(before);
                Err(AllocError)
            }
        }
    }

    /// The level at which at most so many of the groups count, for a problem that has all that were named.
    pub fn level(&self, alloc: Global, groups: u32, most: u32) -> Result<Level, AllocError>
        requires { IsSubset self.now.named (all_groups groups) }
        ensures { IfOk result (λ level. level ≡ level_by groups most self.now) }
    {
        let sure = set_of(alloc, self.alone.as_slice())?;
        let mut order = Vec::new(alloc);
        let mut left = most;
        for group in self.names.as_slice() {
            let is_left_out = sure.contains(group) && left > 0;
            if is_left_out {
                left -= 1;
            } else {
                order.push(*group)?;
            }
        }
        Ok(Level::new(groups, left, self.kind, order))
    }
}

// The set of some numbers.
fn set_of(alloc: Global, numbers: &[u32]) -> Result<BTreeSet<u32>, AllocError>
    ensures { IfOk result (λ set. KnowsAll set numbers.now) }
{
    let mut set = BTreeSet::new(alloc);
    for number in numbers {
        set.insert(*number)?;
    }
    Ok(set)
}
