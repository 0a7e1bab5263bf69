//! Sets that are found by their groups.
//!
//! For each group there is a list of the sets that have it. A look-up asks for a set all whose groups but one are marked,
//! or all but one are not; that one is the group by whose list it goes. The list is walked from its end, and the set that
//! is found moves there, since the next question is often alike. Beside each set stands its guard, the group by which it
//! failed last: most sets that don't fit fail by it again, and cost one look.
//!
//! A look is one guard that is read: they stand side by side, in the order of the numbers.
//!
//! What is found is a number. Whoever looks up tests the set before anything is said of it, so nothing rests on the lists,
//! the guards and the marks.
ghost use Rattle.std.specs.Prelude.{◌≡◌, [], ◌∷◌, ◌++◌, IfOk, IfSome, Some, OnOk, OnErr, slice_get};

use crate::arena::{Lent, SetArena};
use crate::marks::is_marked;
use std::alloc::{AllocError, Global};
use std::marker::Model;

// A group of a set costs its number and its place in a list, and the room that lists are ahead by; a set its span with its
// evidence, its guard, and its place among the hashes.
const GROUP_BYTES: usize = 12;

const SET_BYTES: usize = 80;

/// Sets with their evidence.
#[derive(Drop)]
pub struct SetIndex<E> {
    alloc: Global,
    groups: u32,
    sets: SetArena<E>,
    guards: Vec<u32>,
    // None before the first set.
    lists: Vec<Vec<u32>>,
    bytes: usize,
    most: usize,
}

impl<E> Model for SetIndex<E> {
    ghost use Rattle.std.specs.Prelude.{List};
    ghost use Rattle.known_sets.specs.declared.entry.Entry.{Entry};

    ghost Value = { List (Entry E) };

    ghost view = { λ index. index.sets };
}

/// Which groups are marked, and the one group to which that does not matter.
#[derive(Clone, Copy)]
pub struct Wanted<'a> {
    pub marks: &'a [bool],
    pub mark: bool,
    pub but: u32,
}

impl Wanted<'_> {
    fn passes(&self, group: u32) -> bool {
        group == self.but || is_marked(self.marks, group) == self.mark
    }

    /// The first group that does not pass.
    pub fn first_failing(&self, groups: &[u32]) -> Option<u32> {
        for group in groups {
            if !self.passes(*group) {
                return Some(*group);
            }
        }
        None
    }
}

impl<E> SetIndex<E> {
    /// No sets, of groups up to this one. They, their lists and their guards may take so many bytes at most; evidence is
    /// not counted, since it is shared. It takes no memory before the first set.
    pub fn new(alloc: Global, groups: u32, most: usize) -> SetIndex<E>
        ensures { result ≡ [] }
    {
        SetIndex {
            alloc,
            groups,
            sets: SetArena::new(alloc),
            guards: Vec::new(alloc),
            lists: Vec::new(alloc),
            bytes: 0,
            most,
        }
    }

    /// How many sets there are.
    pub fn len(&self) -> usize {
        self.sets.len()
    }

    /// The set of this number.
    pub fn get(&self, number: usize) -> Option<Lent<'_, E>>
        ensures { IfSome result (λ lent. slice_get self.now number ≡ Some (record { set = lent.set.now; evidence = lent.evidence.now })) }
    {
        self.sets.get(number)
    }

    /// The number of a set that fits, where one is found.
    pub fn find(&mut self, wanted: Wanted<'_>) -> Option<usize>
        ensures { self.new ≡ self.old }
    {
        let at = wanted.but as usize;
        if at >= self.lists.len() {
            return None;
        }
        walk(&self.sets, &mut self.guards, &mut self.lists[at], wanted)
    }
}

// Walks the list of a group from its end.
fn walk<E>(
    sets: &SetArena<E>,
    guards: &mut [u32],
    list: &mut [u32],
    wanted: Wanted<'_>,
) -> Option<usize> {
    let len = list.len();
    for passed in 0..len {
        let at = len - 1 - passed;
        let number = list[at] as usize;
        if number < guards.len() && wanted.passes(guards[number]) {
            let Some(failing) = failing_of(sets, number, wanted) else {
                list.swap(at, len - 1);
                return Some(number);
            };
            guards[number] = failing;
        }
    }
    None
}

// The first group of a set that does not pass.
fn failing_of<E>(sets: &SetArena<E>, number: usize, wanted: Wanted<'_>) -> Option<u32> {
    let lent = sets.get(number)?;
    wanted.first_failing(lent.set)
}

impl<E: Drop> SetIndex<E> {
    /// Adds a set at the end, where there is memory for it and the bound allows it.
    pub fn insert(&mut self, groups: &[u32], evidence: E) -> Result<(), AllocError>
        ensures ok { OnOk result (self.new ≡ self.old ++ record { set = groups.now; evidence = evidence } ∷ []) }
        ensures err { OnErr result (self.new ≡ self.old) }
    {
        let Some(bytes) = bytes_with(self.bytes, groups.len(), self.most) else {
            return Err(AllocError);
        };
        let Ok(number) = u32::try_from(self.sets.len()) else {
            return Err(AllocError);
        };
        self.guards.reserve(1)?;
        begin_lists(self.alloc, &mut self.lists, self.groups)?;
        list_under(&mut self.lists, groups, number)?;
        self.sets.push(groups, evidence)?;
        self.guards
            .push_reserved(groups.first().copied().unwrap_or(0));
        self.bytes = bytes;
        Ok(())
    }
}

// How many bytes there are with a set of so many groups more, where that is within the bound.
fn bytes_with(bytes: usize, groups: usize, most: usize) -> Option<usize> {
    let more = groups.checked_mul(GROUP_BYTES)?.checked_add(SET_BYTES)?;
    let with = bytes.checked_add(more)?;
    if with <= most { Some(with) } else { None }
}

// Makes a list for each group up to this one, where there are none yet.
fn begin_lists(alloc: Global, lists: &mut Vec<Vec<u32>>, groups: u32) -> Result<(), AllocError> {
    if lists.is_empty() {
        *lists = empty_lists(alloc, groups)?;
    }
    Ok(())
}

fn empty_lists(alloc: Global, groups: u32) -> Result<Vec<Vec<u32>>, AllocError> {
    let count = groups as usize + 1;
    let mut lists = Vec::with_capacity(alloc, count)?;
    for _ in 0..count {
        lists.push(Vec::new(alloc))?;
    }
    Ok(lists)
}

// Writes the number of a set into the list of each of its groups. Where memory is wanting in between, some lists have a
// number too many, and a look-up finds that there is no such set, or that it doesn't fit.
fn list_under(lists: &mut [Vec<u32>], groups: &[u32], number: u32) -> Result<(), AllocError> {
    for group in groups {
        let at = *group as usize;
        if at < lists.len() {
            lists[at].push(number)?;
        }
    }
    Ok(())
}
