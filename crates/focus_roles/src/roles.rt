//! The roles of groups, from the sets that records are about.
//!
//! A group of some set is in a conflict, since each group of a minimal correction is in one; and a group that is alone a
//! correction is in each. So it is one walk over the records, which marks both, and one over the groups. What they tell of a
//! group is its role where the records hold all minimal sets, or settle the role of each group.
ghost use Rattle.std.specs.Prelude.{◌≡◌, length, map, IfOk, List};
ghost use Rattle.gm_base.specs.Sets.{IsSubset, all_groups};
ghost use Rattle.gm_base.specs.Problem.{Problem};
ghost use Rattle.gm_base.specs.Explored.{Found};
ghost use Rattle.evidence_rec.specs.Records.{founds, set_of};
ghost use Rattle.map_core.specs.Laws.{told_role};
ghost use Rattle.map_core.specs.Opens.{IsWithin};
ghost use Rattle.map_core.specs.Tallies.{IsMet};
ghost use Rattle.focus_roles.specs.Told.{TellRoles, roles};
ghost use Rattle.focus_roles.specs.Marked.{AreMarked, lone_group, role_by};

use evidence_rec::{Record, Records};
use gm_base::{Kind, Role};
use std::alloc::{AllocError, Global};

/// Which groups a set has, and which are alone a correction: group i + 1 at place i.
#[derive(Drop)]
pub(crate) struct Marks {
    met: Vec<bool>,
    alone: Vec<bool>,
}

/// The role of each group from 1 to the greatest one, as these records tell it.
pub fn roles_of(alloc: Global, groups: u32, records: &Records) -> Result<Vec<Role>, AllocError>
    requires within { IsWithin groups records.now }
    ensures told { IfOk result (λ told. told.items ≡ map (told_role (founds records.now)) (all_groups groups)) }
    ensures roles { (p : Problem) → p.groups ≡ groups → TellRoles p records.now → IfOk result (λ told. told.items ≡ roles p) }
{
    let marks = marks_of(alloc, groups, records.as_slice())?;
    roles_by(alloc, groups, &marks)
}

/// What these records mark.
fn marks_of(alloc: Global, groups: u32, records: &[Record]) -> Result<Marks, AllocError>
    requires within { IsWithin groups records.now }
    ensures { IfOk result (AreMarked groups (founds records.now)) }
{
    let mut met = vec![in alloc; false; groups as usize]?;
    let mut alone = vec![in alloc; false; groups as usize]?;
    for made in records {
        mark(&mut met, made.set().as_slice());
        mark_lone(&mut alone, made);
    }
    Ok(Marks { met, alone })
}

/// Marks the group of a correction that has no other one.
fn mark_lone(marks: &mut Vec<bool>, made: &Record)
    requires within { IsSubset (set_of made.now) (all_groups (length marks.old.items)) }
    ensures { IsMet (lone_group made.now) marks.old.items marks.new.items }
{
    let set = made.set().as_slice();
    if made.kind() == Kind::Correction && set.len() == 1 {
        mark(marks, set);
    }
}

/// Marks these groups too.
fn mark(marks: &mut Vec<bool>, set: &[u32])
    requires within { IsSubset set.now (all_groups (length marks.old.items)) }
    ensures { IsMet set.now marks.old.items marks.new.items }
{
    for g in set {
        marks[*g as usize - 1] = true;
    }
}

/// The roles that the marks tell.
fn roles_by(alloc: Global, groups: u32, marks: &Marks) -> Result<Vec<Role>, AllocError>
    requires met { length marks.now.met.items ≡ groups }
    requires alone { length marks.now.alone.items ≡ groups }
    ensures { (sets : List Found) → AreMarked groups sets marks.now → IfOk result (λ told. told.items ≡ map (told_role sets) (all_groups groups)) }
{
    let mut roles = Vec::with_capacity(alloc, groups as usize)?;
    for at in 0..groups as usize {
        roles.push(role_by(marks.met[at], marks.alone[at]))?;
    }
    Ok(roles)
}

/// The role of a group, by whether a set has it and whether it is alone a correction.
fn role_by(met: bool, alone: bool) -> Role
    ensures { result ≡ role_by met alone }
{
    if !met {
        Role::InNone
    } else if alone {
        Role::InEvery
    } else {
        Role::InSome
    }
}
