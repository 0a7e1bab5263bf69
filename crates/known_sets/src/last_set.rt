//! The set that an answer was about last, with its groups marked.
//!
//! Most questions are about a set that differs from it in one group. Which one that is, is told from the two sets; and who
//! looks up a question by that group finds the rest of the set marked, and needs no look at it.
use crate::marks::Marks;
use crate::neighbours::one_more;
use gm_base::GroupSet;
use std::alloc::Global;

/// A set, if there is one, and marks at its groups.
#[derive(Drop)]
pub struct LastSet {
    set: Option<GroupSet>,
    marks: Marks,
}

impl LastSet {
    /// No set, of groups up to this one. It takes no memory.
    pub fn new(alloc: Global, groups: u32) -> LastSet {
        LastSet {
            set: None,
            marks: Marks::new(alloc, groups),
        }
    }

    /// The set, where there is one.
    pub fn set(&self) -> Option<&GroupSet> {
        self.set.as_ref()
    }

    /// The marks, by the numbers of the groups.
    pub fn marks(&self) -> &[bool] {
        self.marks.as_slice()
    }

    /// Whether it is this set.
    pub fn is(&self, set: &GroupSet) -> bool {
        match &self.set {
            Some(last) => last.as_slice() == set.as_slice(),
            None => false,
        }
    }

    /// The one group that the set has more than the last one.
    pub fn missing_of(&self, set: &GroupSet) -> Option<u32> {
        let Some(last) = &self.set else {
            return None;
        };
        one_more(last.as_slice(), set.as_slice())
    }

    /// The one group that the set has less than the last one.
    pub fn missing_in(&self, set: &GroupSet) -> Option<u32> {
        let Some(last) = &self.set else {
            return None;
        };
        one_more(set.as_slice(), last.as_slice())
    }

    /// Puts a copy of a set in the place of the last one, or nothing where there is no memory for it.
    pub fn replace(&mut self, alloc: Global, set: &GroupSet) {
        let copy = set.copy(alloc).ok();
        if let Some(before) = &self.set {
            self.marks.clear(before.as_slice());
        }
        if let Some(now) = &copy {
            self.marks.set(now.as_slice());
        }
        self.set = copy;
    }
}
