//! The groups that are unsettled: it is not known yet whether each conflict has them.
//!
//! Where a conflict was found, the set of all groups is explored. So is that of all groups but one, where a conflict lacks
//! this group or it is a correction by itself. All groups but another one are not explored, if there is a conflict, and no
//! set that is left properly holds them. Who asks about them is told whether each conflict has that group: a conflict among
//! them lacks it, and where they can be satisfied, it is a correction by itself.
//!
//! The groups of a conflict that is the first block of all are unsettled. Each later block settles those that it tells of,
//! and a group is handed out once.
ghost use Rattle.std.specs.Prelude.{◌≡◌, ◌<◌, ℕ, not, ◌==◌, [], ◌∷◌, true, IfOk};
ghost use Rattle.std.specs.List.{list_any};
ghost use Rattle.gm_base.specs.Sets.{complement};
ghost use Rattle.power_map.specs.Unsettled.{leaves, unsettled_behind};

use gm_base::{GroupSet, Side};
use std::alloc::{AllocError, Global};

/// Whether this block begins the list: it is asked for, and the first one.
pub fn is_beginning(for_roles: bool, sides: &[Side]) -> bool
    ensures { result ≡ true → sides.now ≡ [] }
{
    for_roles && sides.is_empty()
}

/// The groups that are unsettled behind a block. Where it settles none it takes no memory, but for the first block.
pub fn unsettled_behind(
    alloc: Global,
    begins: bool,
    groups: Vec<u32>,
    set: &GroupSet,
    side: Side,
) -> Result<Vec<u32>, AllocError>
    ensures { IfOk result (λ left. left.items ≡ unsettled_behind begins side set.now groups.items) }
{
    if begins {
        return match side {
            Side::Up => Vec::from_slice(alloc, set.as_slice()),
            Side::Down => Ok(Vec::new(alloc)),
        };
    }
    if settles_none(set, side) {
        return Ok(groups);
    }
    let mut left = Vec::new(alloc);
    for g in groups.as_slice() {
        if leaves(set, side, *g) {
            left.push(*g)?;
        }
    }
    Ok(left)
}

// Whether that of a correction has two groups, so that it has another one than each.
fn settles_none(set: &GroupSet, side: Side) -> bool
    ensures { result ≡ true → (g : ℕ) → leaves side set.now g ≡ true }
{
    match side {
        Side::Up => false,
        Side::Down => set.as_slice().len() >= 2,
    }
}

// Whether a block leaves all groups but this one.
fn leaves(set: &GroupSet, side: Side, g: u32) -> bool
    ensures { result ≡ leaves side set.now g }
{
    match side {
        Side::Up => set.contains(g),
        Side::Down => has_other(set, g),
    }
}

// Whether a set has a group other than this one.
fn has_other(set: &GroupSet, g: u32) -> bool
    ensures { result ≡ list_any (λ h. not (h == g)) set.now }
{
    for h in set.as_slice() {
        if *h != g {
            return true;
        }
    }
    false
}

/// All groups but one.
pub fn all_but(alloc: Global, groups: u32, g: u32) -> Result<GroupSet, AllocError>
    requires { 0 < g }
    ensures { IfOk result (λ set. set ≡ complement groups (g ∷ [])) }
{
    let mut one = GroupSet::new(alloc);
    one.push(g)?;
    one.complement(alloc, groups)
}
