//! Marks at groups.
//!
//! There are some for each worker, most of which may never be asked anything. So they are made when the first ones are set;
//! until then no group is marked. Where there is no memory for them none is either: nothing rests on what is found by them.
use std::alloc::{AllocError, Global};

/// Which groups are marked.
#[derive(Drop)]
pub struct Marks {
    alloc: Global,
    groups: u32,
    marks: Vec<bool>,
}

impl Marks {
    /// No marks, at groups up to this one. It takes no memory.
    pub fn new(alloc: Global, groups: u32) -> Marks {
        Marks {
            alloc,
            groups,
            marks: Vec::new(alloc),
        }
    }

    /// The marks, by the numbers of the groups. A group that has none is not marked.
    pub fn as_slice(&self) -> &[bool] {
        self.marks.as_slice()
    }

    /// Sets the marks of these groups on.
    pub fn set(&mut self, groups: &[u32]) {
        if self.begin().is_ok() {
            mark_all(&mut self.marks, groups, true);
        }
    }

    /// Sets the marks of these groups off.
    pub fn clear(&mut self, groups: &[u32]) {
        mark_all(&mut self.marks, groups, false);
    }

    // Makes the marks, where there are none yet.
    fn begin(&mut self) -> Result<(), AllocError> {
        if self.marks.is_empty() {
            self.marks = vec![in self.alloc; false; self.groups as usize + 1]?;
        }
        Ok(())
    }
}

fn mark_all(marks: &mut [bool], groups: &[u32], mark: bool) {
    for group in groups {
        let at = *group as usize;
        if at < marks.len() {
            marks[at] = mark;
        }
    }
}

/// Whether a group is marked.
pub fn is_marked(marks: &[bool], group: u32) -> bool {
    marks.get(group as usize) == Some(&true)
}
