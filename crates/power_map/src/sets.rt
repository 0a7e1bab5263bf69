//! Sets read off assignments.
//!
//! An assignment of the map is read as the set of the groups whose variables are true. Taken from the lowest variable up,
//! they ascend, as a set does.
ghost use Rattle.std.specs.Prelude.{◌≡◌, ◌<◌, ◌^◌, length, IfOk};
ghost use Rattle.gm_base.specs.Explored.{groups_true};

use gm_base::{Assign, GroupSet, Lit};
use std::alloc::{AllocError, Global};

/// The groups whose variables are true.
pub fn set_of(alloc: Global, groups: u32, assign: &Assign) -> Result<GroupSet, AllocError>
    requires total { length assign.now ≡ groups }
    requires in_range { groups < 2 ^ 31 }
    ensures { IfOk result (λ set. set ≡ groups_true assign.now) }
{
    let mut set = GroupSet::new(alloc);
    for at in 0..groups {
        let group = at + 1;
        if assign.makes_true(Lit::new(group as i32)) {
            set.push(group)?;
        }
    }
    Ok(set)
}
