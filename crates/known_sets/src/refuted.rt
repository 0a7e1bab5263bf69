//! Sets that were refuted.
//!
//! A refutation of a set serves each larger set, so a question is answered by a known set that lies within the asked one.
//! That is tested of each set before it is handed out.
//!
//! A set with one group more than the last satisfied one can hold only refuted sets with that group, since the others lie
//! within the satisfied set. So a set is looked for by a group of it.
//!
//! Shrinking refutes ever smaller sets, of which only the last is worth keeping. So the set that was refuted last is held
//! apart, and goes to the others when one comes that does not lie within it.
ghost use Rattle.std.specs.Prelude.{◌≡◌, true, IfOk, IfSome};
ghost use Rattle.gm_base.specs.Sets.{with_group, IsSubset};
ghost use Rattle.gm_base.specs.Problem.{Problem};
ghost use Rattle.gm_base.specs.Evidence.{refutes};
ghost use Rattle.known_sets.specs.Entries.{IsRefuted};
ghost use Rattle.known_sets.specs.Refuted.{AreRefuted};

use crate::arena::set_of;
use crate::entry::{Entry, Refuted};
use crate::index::{SetIndex, Wanted};
use crate::last_set::LastSet;
use crate::marks::Marks;
use crate::tested::are_within;
use gm_base::{Derivation, GroupSet};
use std::alloc::{AllocError, Global};

/// Sets, each with a derivation that refutes it.
#[derive(Drop)]
pub struct RefutedSets {
    sets: SetIndex<Derivation>,
    held: Option<Refuted>,
    last: LastSet,
    // No group is marked between look-ups.
    marks: Marks,
}

impl RefutedSets {
    /// No sets, of groups up to this one, and so many bytes at most. It takes no memory.
    pub fn new(alloc: Global, groups: u32, most: usize) -> RefutedSets
        ensures { (p : Problem) → AreRefuted p result }
    {
        RefutedSets {
            sets: SetIndex::new(alloc, groups, most),
            held: None,
            last: LastSet::new(alloc, groups),
            marks: Marks::new(alloc, groups),
        }
    }

    /// The groups of the set that was answered last are marked.
    pub fn last_marks(&self) -> &[bool] {
        self.last.marks()
    }

    /// The set that was answered last, where there is one.
    pub fn last_set(&self) -> Option<&GroupSet> {
        self.last.set()
    }

    /// The one group that the set has less than the one that was answered last.
    pub fn missing_in(&self, set: &GroupSet) -> Option<u32> {
        self.last.missing_in(set)
    }

    /// A set within this one, where one is found: by a group of it where one is named, or the one that was refuted last.
    pub fn within(&mut self, alloc: Global, set: &GroupSet, by: Option<u32>) -> Option<Refuted>
        ensures right { (p : Problem) → AreRefuted p self.old → AreRefuted p self.new }
        ensures within { IfSome result (λ entry. IsSubset entry.set set.now) }
        ensures refuted { (p : Problem) → AreRefuted p self.old → IfSome result (IsRefuted p) }
    {
        let entry = self.near(alloc, set, by)?;
        self.last.replace(alloc, &entry.set);
        Some(entry)
    }

    fn near(&mut self, alloc: Global, set: &GroupSet, by: Option<u32>) -> Option<Refuted>
        ensures sets { self.new.sets ≡ self.old.sets }
        ensures held { self.new.held ≡ self.old.held }
        ensures within { IfSome result (λ entry. IsSubset entry.set set.now) }
        ensures refuted { (p : Problem) → AreRefuted p self.old → IfSome result (IsRefuted p) }
    {
        match by {
            Some(group) => self.by_group(alloc, set, group),
            None => self.held_in_seed(alloc, set),
        }
    }

    // A set within this one, by a group of it.
    fn by_group(&mut self, alloc: Global, set: &GroupSet, group: u32) -> Option<Refuted>
        ensures sets { self.new.sets ≡ self.old.sets }
        ensures held { self.new.held ≡ self.old.held }
        ensures within { IfSome result (λ entry. IsSubset entry.set set.now) }
        ensures refuted { (p : Problem) → AreRefuted p self.old → IfSome result (IsRefuted p) }
    {
        if let Some(entry) = self.held_within(alloc, set) {
            return Some(entry);
        }
        let number = self.number_by(set, group)?;
        let lent = self.sets.get(number)?;
        let known = set_of(alloc, lent.set)?;
        if known.is_subset(set) {
            with_proof(known, lent.evidence)
        } else {
            None
        }
    }

    // The number of a set that may lie within this one, by a group of it.
    fn number_by(&mut self, set: &GroupSet, group: u32) -> Option<usize>
        ensures sets { self.new.sets ≡ self.old.sets }
        ensures held { self.new.held ≡ self.old.held }
    {
        self.marks.set(set.as_slice());
        let found = self.sets.find(Wanted {
            marks: self.marks.as_slice(),
            mark: true,
            but: group,
        });
        self.marks.clear(set.as_slice());
        found
    }

    // The set that was refuted last, where it lies within this one. A set that shrinking it asks about does not hold it.
    fn held_in_seed(&self, alloc: Global, set: &GroupSet) -> Option<Refuted>
        ensures within { IfSome result (λ entry. IsSubset entry.set set.now) }
        ensures refuted { (p : Problem) → AreRefuted p self.now → IfSome result (IsRefuted p) }
    {
        if self.last.missing_in(set).is_some() {
            return None;
        }
        self.held_within(alloc, set)
    }

    // The set that was refuted last, where it lies within this one.
    fn held_within(&self, alloc: Global, set: &GroupSet) -> Option<Refuted>
        ensures within { IfSome result (λ entry. IsSubset entry.set set.now) }
        ensures refuted { (p : Problem) → AreRefuted p self.now → IfSome result (IsRefuted p) }
    {
        let Some(held) = &self.held else {
            return None;
        };
        if held.set.is_subset(set) {
            copy_of(alloc, held).ok()
        } else {
            None
        }
    }

    /// A set within this one with one group more, where one is found: the one that was refuted last, or by that group. The
    /// groups by which it is looked for are marked.
    pub fn within_more(
        &mut self,
        alloc: Global,
        set: &GroupSet,
        group: u32,
        marks: &[bool],
    ) -> Option<Refuted>
        ensures right { (p : Problem) → AreRefuted p self.old → AreRefuted p self.new }
        ensures within { IfSome result (λ entry. IsSubset entry.set (with_group set.now group)) }
        ensures refuted { (p : Problem) → AreRefuted p self.old → IfSome result (IsRefuted p) }
    {
        let entry = match self.held_with(alloc, set, group) {
            Some(entry) => entry,
            None => self.found_with(alloc, set, group, marks)?,
        };
        self.last.replace(alloc, &entry.set);
        Some(entry)
    }

    // The set that was refuted last, where it lies within this one with a group.
    fn held_with(&self, alloc: Global, set: &GroupSet, group: u32) -> Option<Refuted>
        ensures within { IfSome result (λ entry. IsSubset entry.set (with_group set.now group)) }
        ensures refuted { (p : Problem) → AreRefuted p self.now → IfSome result (IsRefuted p) }
    {
        let Some(held) = &self.held else {
            return None;
        };
        if !are_within(held.set.as_slice(), set, group) {
            return None;
        }
        copy_of(alloc, held).ok()
    }

    // A set within this one with a group, by that group.
    fn found_with(
        &mut self,
        alloc: Global,
        set: &GroupSet,
        group: u32,
        marks: &[bool],
    ) -> Option<Refuted>
        ensures sets { self.new.sets ≡ self.old.sets }
        ensures held { self.new.held ≡ self.old.held }
        ensures within { IfSome result (λ entry. IsSubset entry.set (with_group set.now group)) }
        ensures refuted { (p : Problem) → AreRefuted p self.old → IfSome result (IsRefuted p) }
    {
        let found = self.sets.find(Wanted {
            marks,
            mark: true,
            but: group,
        });
        let lent = self.sets.get(found?)?;
        if !are_within(lent.set, set, group) {
            return None;
        }
        let known = set_of(alloc, lent.set)?;
        with_proof(known, lent.evidence)
    }

    /// Whether a known set is found that lies within the marked groups and this one.
    pub fn is_found(&mut self, marks: &[bool], group: u32) -> bool
        ensures { self.new ≡ self.old }
    {
        let wanted = Wanted {
            marks,
            mark: true,
            but: group,
        };
        if let Some(held) = &self.held {
            if wanted.first_failing(held.set.as_slice()).is_none() {
                return true;
            }
        }
        self.sets.find(wanted).is_some()
    }

    /// Adds a set.
    pub fn insert(&mut self, set: &GroupSet, proof: Derivation)
        ensures { (p : Problem) → AreRefuted p self.old → refutes p set.now proof ≡ true → AreRefuted p self.new }
    {
        self.sets.insert(set.as_slice(), proof).ok();
    }

    /// Adds a set as the one that was answered and refuted last, and gives it back where there is memory for that.
    pub fn hold(&mut self, alloc: Global, set: &GroupSet, proof: Derivation) -> Option<Refuted>
        ensures right { (p : Problem) → AreRefuted p self.old → refutes p set.now proof ≡ true → AreRefuted p self.new }
        ensures same_set { IfSome result (λ entry. entry.set ≡ set.now) }
        ensures same_proof { IfSome result (λ entry. entry.evidence ≡ proof) }
    {
        self.last.replace(alloc, set);
        let entry = entry_of(alloc, set, proof)?;
        let copy = copy_of(alloc, &entry).ok();
        self.hold_entry(entry);
        copy
    }

    // Holds a set apart. The one that was held before goes to the others, where this one does not lie within it.
    fn hold_entry(&mut self, entry: Refuted)
        ensures { (p : Problem) → AreRefuted p self.old → IsRefuted p entry → AreRefuted p self.new }
    {
        let smaller = is_within(&entry.set, &self.held);
        let before = self.held.replace(entry);
        if !smaller {
            if let Some(before) = before {
                let Entry { set, evidence } = before;
                self.sets.insert(set.as_slice(), evidence).ok();
            }
        }
    }
}

// A copy of a set with its refutation, where there is memory for that.
fn entry_of(alloc: Global, set: &GroupSet, proof: Derivation) -> Option<Refuted>
    ensures { IfSome result (λ entry. entry ≡ record { set = set.now; evidence = proof }) }
{
    let Ok(set) = set.copy(alloc) else {
        return None;
    };
    Some(Entry {
        set,
        evidence: proof,
    })
}

// A set with a copy of its refutation, where there is memory for that.
fn with_proof(set: GroupSet, proof: &Derivation) -> Option<Refuted>
    ensures { IfSome result (λ entry. entry ≡ record { set = set; evidence = proof.now }) }
{
    let Ok(evidence) = proof.copy() else {
        return None;
    };
    Some(Entry { set, evidence })
}

// Whether there is a set and the other lies within it.
fn is_within(set: &GroupSet, other: &Option<Refuted>) -> bool {
    match other {
        Some(other) => set.is_subset(&other.set),
        None => false,
    }
}

fn copy_of(alloc: Global, entry: &Refuted) -> Result<Refuted, AllocError>
    ensures { IfOk result (λ copy. copy ≡ entry.now) }
{
    Ok(Entry {
        set: entry.set.copy(alloc)?,
        evidence: entry.evidence.copy()?,
    })
}
