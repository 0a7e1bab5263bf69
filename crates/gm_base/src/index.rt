//! The index of the clauses by their groups.
//!
//! Whether an assignment satisfies a set of groups is asked often, and of few groups or of nearly all. So the group and the
//! place of each clause are kept ascending by group: the clauses of one group are a stretch of that list. Beside it stands
//! where the stretch of each group begins, so a stretch is found by two reads, and groups that are asked about in their order
//! are read in order too.
ghost use Rattle.std.specs.Prelude.{◌≡◌, ◌<◌, ◌≤◌, IfOk, All, Contains, length};
ghost use Rattle.std.specs.List.{AllWithin};
ghost use Rattle.std.specs.List.Sorted.{IsNonDecreasingBy};
ghost use Rattle.gm_base.specs.Index.{IsIndex, Begins, AreStarts};

use crate::clause::Clause;
use std::alloc::{AllocError, Global};

/// Where a clause stands: its group, and its place among all clauses, from 0.
#[derive(Clone, Copy)]
pub struct Placed {
    pub group: u32,
    pub at: u32,
}

/// The group and the place of each clause, ascending by group.
pub fn index_of(alloc: Global, clauses: &[Clause]) -> Result<Vec<Placed>, AllocError>
    ensures { IfOk result (λ index. IsIndex clauses.now index.items) }
{
    let mut index = Vec::with_capacity(alloc, clauses.len())?;
    for clause in clauses {
        let Ok(at) = u32::try_from(index.len()) else {
            return Err(AllocError);
        };
        index.push(Placed {
            group: clause.group,
            at,
        })?;
    }
    index.sort_unstable_by_key(|placed| placed.group);
    Ok(index)
}

/// Where the stretch of each group begins, up to the group above the greatest one that has a clause.
pub fn starts_of(alloc: Global, index: &[Placed]) -> Result<Vec<u32>, AllocError>
    requires { IsNonDecreasingBy (λ placed. placed.group) index.now }
    ensures { IfOk result (λ starts. AreStarts index.now starts.items) }
{
    let count = greatest_in(index) as usize + 2;
    let mut starts = Vec::with_capacity(alloc, count)?;
    let mut at = 0;
    for group in 0..count {
        at = start_from(index, at, group);
        let Ok(start) = u32::try_from(at) else {
            return Err(AllocError);
        };
        starts.push(start)?;
    }
    Ok(starts)
}

// The greatest group that has a clause.
fn greatest_in(index: &[Placed]) -> u32
    requires { IsNonDecreasingBy (λ placed. placed.group) index.now }
    ensures { All (λ placed. placed.group ≤ result) index.now }
{
    let count = index.len();
    if count == 0 {
        return 0;
    }
    index[count - 1].group
}

// Where the stretch of a group begins, behind this place.
fn start_from(index: &[Placed], from: usize, group: usize) -> usize
    requires ascends { IsNonDecreasingBy (λ placed. placed.group) index.now }
    requires within { from ≤ length index.now }
    requires below { AllWithin (λ placed. placed.group < group) index.now 0 from }
    ensures { Begins index.now group result }
{
    for at in from..index.len() {
        if index[at].group as usize >= group {
            return at;
        }
    }
    index.len()
}

/// The part of the index that is of this group.
pub fn stretch<'a>(index: &'a [Placed], starts: &[u32], group: u32) -> &'a [Placed]
    requires { AreStarts index.now starts.now }
    ensures of_group { All (λ placed. placed.group ≡ group) result.now }
    ensures each { All (λ placed. placed.group ≡ group → Contains result.now placed) index.now }
    ensures inside { All (Contains index.now) result.now }
{
    let at = group as usize;
    if at + 1 >= starts.len() {
        return &index[index.len()..];
    }
    let from = starts[at] as usize;
    let to = starts[at + 1] as usize;
    &index[from..to]
}
