//! Groups of the set that is shrunk which are critical.
//!
//! An assignment that satisfies the background and all groups of an unsatisfiable set but one shows that this one is
//! critical. Often the flip of one variable shows another group critical, and another one from there (model rotation,
//! Marques-Silva and Lynce 2011). What such an assignment does to groups outside of the set is not looked at, so that
//! this costs the set, and not all groups there are.
//!
//! What is shown of a set is shown of each part of it, so what is known stays while the set is shrunk. It is dropped when
//! another set comes. Nothing rests on what is kept here: an assignment is tested before it is handed out as a witness.
use crate::tested::are_within;
use gm_base::{Assign, GroupSet};
use std::alloc::{AllocError, Global};

/// A group, and an assignment that satisfies the background and the others of a set.
#[derive(Drop)]
pub struct Critical {
    pub group: u32,
    pub witness: Assign,
}

/// A set, and those of its groups that were shown critical, in the order in which they were.
#[derive(Drop)]
pub struct CriticalGroups {
    set: GroupSet,
    shown: Vec<Critical>,
    // Of each group of the set, in order, which one of those shown it is, counted from 1.
    numbers: Vec<u32>,
}

impl CriticalGroups {
    /// Nothing is known. It takes no memory.
    pub fn new(alloc: Global) -> CriticalGroups {
        CriticalGroups {
            set: GroupSet::new(alloc),
            shown: Vec::new(alloc),
            numbers: Vec::new(alloc),
        }
    }

    /// The set of whose groups something is known.
    pub fn set(&self) -> &GroupSet {
        &self.set
    }

    /// How many of its groups are known to be critical.
    pub fn len(&self) -> usize {
        self.shown.len()
    }

    /// The one of this number of them.
    pub fn get(&self, number: usize) -> Option<&Critical> {
        self.shown.get(number)
    }

    /// Whether a group is known to be critical.
    pub fn has(&self, group: u32) -> bool {
        self.find(group).is_some()
    }

    /// What is known of a group of a set, where that is the set at hand or a part of it.
    pub fn of(&mut self, alloc: Global, set: &GroupSet, group: u32) -> Option<Assign> {
        if self.shown.is_empty() {
            return None;
        }
        let Ok(()) = self.begin(alloc, set) else {
            return None;
        };
        let Ok(witness) = self.find(group)?.witness.copy() else {
            return None;
        };
        Some(witness)
    }

    /// Has an assignment be known that satisfies a part of a set, where the part has all its groups but one.
    pub fn add(
        &mut self,
        alloc: Global,
        set: &GroupSet,
        part: &GroupSet,
        group: u32,
        assign: &Assign,
    ) -> Result<(), AllocError> {
        self.begin(alloc, set)?;
        if !are_within(set.as_slice(), part, group) {
            return Ok(());
        }
        let witness = assign.copy()?;
        self.insert(group, witness)
    }

    /// Adds a group of the set with its assignment.
    pub fn insert(&mut self, group: u32, witness: Assign) -> Result<(), AllocError> {
        self.shown.push(Critical { group, witness })?;
        note(&self.set, &mut self.numbers, group, self.shown.len());
        Ok(())
    }

    // Has the set be this one. What is known stays where it is a part of the set before.
    fn begin(&mut self, alloc: Global, set: &GroupSet) -> Result<(), AllocError> {
        if self.set.as_slice() == set.as_slice() {
            return Ok(());
        }
        let copy = set.copy(alloc)?;
        let mut numbers = vec![in alloc; 0u32; set.len()]?;
        if !set.is_subset(&self.set) {
            self.shown.clear();
        }
        note_all(&copy, &mut numbers, self.shown.as_slice());
        self.set = copy;
        self.numbers = numbers;
        Ok(())
    }

    // What is known of a group.
    fn find(&self, group: u32) -> Option<&Critical> {
        let at = place_of(&self.set, group)?;
        let number = self.numbers.get(at).copied()?;
        let found = self.get((number as usize).checked_sub(1)?)?;
        if found.group == group {
            Some(found)
        } else {
            None
        }
    }
}

// Where a group stands in a set.
fn place_of(set: &GroupSet, group: u32) -> Option<usize> {
    set.as_slice().binary_search(&group).ok()
}

// Notes the numbers of groups that are known.
fn note_all(set: &GroupSet, numbers: &mut [u32], shown: &[Critical]) {
    for (at, one) in shown.iter().enumerate() {
        note(set, numbers, one.group, at.saturating_add(1));
    }
}

// Notes the number of a group.
fn note(set: &GroupSet, numbers: &mut [u32], group: u32, number: usize) {
    let (Some(at), Ok(number)) = (place_of(set, group), u32::try_from(number)) else {
        return;
    };
    if at < numbers.len() {
        numbers[at] = number;
    }
}
