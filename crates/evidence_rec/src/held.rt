//! Which sets are held, by kind, in the order of sets.
ghost use Rattle.std.specs.Prelude.{◌≡◌, ℕ, not, ◌&&◌, ◌||◌, List, IfOk, OnOk, OnErr};
ghost use Rattle.std.specs.Ordering.{nat_cmp};
ghost use Rattle.std.specs.Cmp.Lexicographic.{slice_cmp};
ghost use Rattle.std.specs.BTreeSet.{contains_by};
ghost use Rattle.evidence_rec.specs.Held.{same_set};

use gm_base::{GroupSet, Kind};
use std::alloc::{AllocError, Global};
use std::collections::BTreeSet;

/// The sets of the conflicts and those of the corrections.
#[derive(Drop)]
pub struct Held {
    pub conflicts: BTreeSet<GroupSet>,
    pub corrections: BTreeSet<GroupSet>,
}

// Puts a set among the others, and tells whether it is new there.
fn put(sets: &mut BTreeSet<GroupSet>, set: GroupSet) -> Result<bool, AllocError>
    ensures new { IfOk result (λ new. new ≡ not (contains_by (slice_cmp nat_cmp set) sets.old)) }
    ensures ok { OnOk result ((q : List ℕ) → contains_by (slice_cmp nat_cmp q) sets.new ≡ (same_set set q || contains_by (slice_cmp nat_cmp q) sets.old)) }
    ensures err { OnErr result (sets.new.keys ≡ sets.old.keys) }
{
    let new = sets.insert(set)?;
    Ok(new)
}

fn take_out(sets: &mut BTreeSet<GroupSet>, set: &GroupSet)
    ensures { (q : List ℕ) → contains_by (slice_cmp nat_cmp q) sets.new ≡ (not (same_set set.now q) && contains_by (slice_cmp nat_cmp q) sets.old) }
{
    sets.remove(set);
}

impl Held {
    ghost use Rattle.evidence_rec.specs.Index.{holds, Gains, Loses, IsSameHeld, HoldsNothing};

    /// No set. It takes no memory.
    pub fn new(alloc: Global) -> Held
        ensures { HoldsNothing result }
    {
        Held {
            conflicts: BTreeSet::new(alloc),
            corrections: BTreeSet::new(alloc),
        }
    }

    pub fn has(&self, kind: Kind, set: &GroupSet) -> bool
        ensures { result ≡ holds self.now kind set.now }
    {
        match kind {
            Kind::Conflict => self.conflicts.contains(set),
            Kind::Correction => self.corrections.contains(set),
        }
    }

    /// One set more, which may be there already: whether it is new.
    pub fn add(&mut self, kind: Kind, set: GroupSet) -> Result<bool, AllocError>
        ensures new { IfOk result (λ new. new ≡ not (holds self.old kind set)) }
        ensures ok { OnOk result (Gains kind set self.old self.new) }
        ensures err { OnErr result (IsSameHeld self.old self.new) }
    {
        match kind {
            Kind::Conflict => put(&mut self.conflicts, set),
            Kind::Correction => put(&mut self.corrections, set),
        }
    }

    pub fn remove(&mut self, kind: Kind, set: &GroupSet)
        ensures { Loses kind set.now self.old self.new }
    {
        match kind {
            Kind::Conflict => take_out(&mut self.conflicts, set),
            Kind::Correction => take_out(&mut self.corrections, set),
        }
    }
}
