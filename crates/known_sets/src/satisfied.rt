//! Sets that were satisfied, each by the groups outside of it.
//!
//! An assignment that satisfies a set serves each smaller one, so a question is answered where the asked set has none of
//! the groups that some assignment leaves out. That is tested of each before its assignment is handed out.
//!
//! A set with one group less than the last refuted one can miss only complements with that group, since each has a group of
//! the refuted set. So one is found by a group, or by a hash of all its groups: a seed that lies within a set which can be
//! satisfied is that set, where seeds are greatest, since a larger one would have been handed out in its place.
ghost use Rattle.std.specs.Prelude.{◌≡◌, [], ◌∷◌, ◌++◌, true, All, IfOk, IfSome, Some, OnOk, OnErr, slice_get};
ghost use Rattle.gm_base.specs.Sets.{without, IsSubset, all_groups};
ghost use Rattle.gm_base.specs.Problem.{Problem};
ghost use Rattle.gm_base.specs.Evidence.{is_witness};
ghost use Rattle.known_sets.specs.Entries.{IsSatisfied};

use crate::arena::Lent;
use crate::index::{SetIndex, Wanted};
use crate::last_set::LastSet;
use crate::marks::Marks;
use crate::numbers::SetNumbers;
use crate::tested::{misses, misses_but};
use gm_base::{Assign, GroupSet};
use std::alloc::{AllocError, Global};
use std::marker::Model;

/// Complements of sets, each with an assignment that satisfies the background and the set.
#[derive(Drop)]
pub struct SatisfiedSets {
    index: SetIndex<Assign>,
    numbers: SetNumbers,
    last: LastSet,
    // No group is marked between look-ups.
    marks: Marks,
}

impl Model for SatisfiedSets {
    ghost use Rattle.std.specs.Prelude.{List, Bool};
    ghost use Rattle.known_sets.specs.declared.entry.Entry.{Entry};

    ghost Value = { List (Entry (List Bool)) };

    ghost view = { λ sets. sets.index };
}

impl SatisfiedSets {
    /// No sets, of groups up to this one, and so many bytes at most. It takes no memory.
    pub fn new(alloc: Global, groups: u32, most: usize) -> SatisfiedSets
        ensures { result ≡ [] }
    {
        SatisfiedSets {
            index: SetIndex::new(alloc, groups, most),
            numbers: SetNumbers::new(alloc, groups),
            last: LastSet::new(alloc, groups),
            marks: Marks::new(alloc, groups),
        }
    }

    /// The complement of this number, and its assignment.
    pub fn get(&self, number: usize) -> Option<Lent<'_, Assign>>
        ensures { IfSome result (λ lent. slice_get self.now number ≡ Some (record { set = lent.set.now; evidence = lent.evidence.now })) }
    {
        self.index.get(number)
    }

    /// How many complements there are.
    pub fn len(&self) -> usize {
        self.index.len()
    }

    /// The number of a complement that fits.
    pub fn find(&mut self, wanted: Wanted<'_>) -> Option<usize>
        ensures { self.new ≡ self.old }
    {
        self.index.find(wanted)
    }

    /// Whether this complement is there.
    pub fn has(&self, out: &GroupSet) -> bool {
        let Some(number) = self.numbers.same(out.as_slice()) else {
            return false;
        };
        let Some(lent) = self.index.get(number) else {
            return false;
        };
        lent.set == out.as_slice()
    }

    /// The groups of the set that was answered last are marked.
    pub fn last_marks(&self) -> &[bool] {
        self.last.marks()
    }

    /// Whether the set is the one that was answered last.
    pub fn is_last(&self, set: &GroupSet) -> bool {
        self.last.is(set)
    }

    /// The number of a complement that may have just the groups that the set lacks.
    pub fn outside(&self, set: &GroupSet) -> Option<usize> {
        self.numbers.outside(set.as_slice())
    }

    /// The one group that the set has more than the one that was answered last.
    pub fn missing_of(&self, set: &GroupSet) -> Option<u32> {
        self.last.missing_of(set)
    }

    /// Has the set be the one that was answered last.
    pub fn answered(&mut self, alloc: Global, set: &GroupSet)
        ensures { self.new ≡ self.old }
    {
        self.last.replace(alloc, set);
    }

    /// An assignment that satisfies the background and the set, where one is found: by a group that the set has to leave
    /// out, where one is named, or else by all groups outside of the set.
    pub fn within(&mut self, alloc: Global, set: &GroupSet, by: Option<u32>) -> Option<Assign>
        ensures same { self.new ≡ self.old }
        ensures witness { (p : Problem) → All (IsSatisfied p) self.old → IsSubset set.now (all_groups p.groups) → IfSome result (λ assign. is_witness p set.now assign ≡ true) }
    {
        let number = self.number_of(set, by)?;
        let assign = self.assignment(number, set)?;
        self.last.replace(alloc, set);
        Some(assign)
    }

    // The number of a complement that may have no group of the set.
    fn number_of(&mut self, set: &GroupSet, by: Option<u32>) -> Option<usize>
        ensures { self.new ≡ self.old }
    {
        let Some(group) = by else {
            return self.numbers.outside(set.as_slice());
        };
        self.marks.set(set.as_slice());
        let found = self.index.find(Wanted {
            marks: self.marks.as_slice(),
            mark: false,
            but: group,
        });
        self.marks.clear(set.as_slice());
        found
    }

    // The assignment of this number, where it satisfies the set.
    fn assignment(&self, number: usize, set: &GroupSet) -> Option<Assign>
        ensures { (p : Problem) → All (IsSatisfied p) self.now → IsSubset set.now (all_groups p.groups) → IfSome result (λ assign. is_witness p set.now assign ≡ true) }
    {
        let lent = self.get(number)?;
        if !misses(set, lent.set) {
            return None;
        }
        let Ok(assign) = lent.evidence.copy() else {
            return None;
        };
        Some(assign)
    }

    /// An assignment that satisfies the background and the set without one of its groups, where one is found by that group.
    /// The groups by which it is looked for are marked.
    pub fn within_less(&mut self, set: &GroupSet, group: u32, marks: &[bool]) -> Option<Assign>
        ensures same { self.new ≡ self.old }
        ensures witness { (p : Problem) → All (IsSatisfied p) self.old → IsSubset set.now (all_groups p.groups) → IfSome result (λ assign. is_witness p (without set.now group) assign ≡ true) }
    {
        let number = self.find(Wanted {
            marks,
            mark: false,
            but: group,
        })?;
        self.assignment_without(number, set, group)
    }

    // The assignment of this number, where it satisfies the set without a group.
    fn assignment_without(&self, number: usize, set: &GroupSet, group: u32) -> Option<Assign>
        ensures { (p : Problem) → All (IsSatisfied p) self.now → IsSubset set.now (all_groups p.groups) → IfSome result (λ assign. is_witness p (without set.now group) assign ≡ true) }
    {
        let lent = self.get(number)?;
        if !misses_but(set, lent.set, group) {
            return None;
        }
        let Ok(witness) = lent.evidence.copy() else {
            return None;
        };
        Some(witness)
    }

    /// Adds a complement at the end, where there is memory for it and the bound allows it.
    pub fn insert(&mut self, out: &GroupSet, assign: Assign) -> Result<(), AllocError>
        ensures ok { OnOk result (self.new ≡ self.old ++ record { set = out.now; evidence = assign } ∷ []) }
        ensures err { OnErr result (self.new ≡ self.old) }
    {
        let number = self.index.len();
        self.index.insert(out.as_slice(), assign)?;
        self.numbers.insert(out.as_slice(), number).ok();
        Ok(())
    }

    /// Adds the complement of a set, of so many groups.
    pub fn insert_set(
        &mut self,
        alloc: Global,
        groups: u32,
        set: &GroupSet,
        assign: &Assign,
    ) -> Result<(), AllocError>
        ensures { (p : Problem) → p.groups ≡ groups → is_witness p set.now assign.now ≡ true → All (IsSatisfied p) self.old → All (IsSatisfied p) self.new }
    {
        let out = set.complement(alloc, groups)?;
        let assign = assign.copy()?;
        self.insert(&out, assign)
    }
}
