//! A set of groups by a table.
//!
//! Each literal of a selector asks whether its group is in the set, and a step may have hundreds of them. The set, which halves,
//! is asked once for each group of the problem, and then an answer is one look into a table.
ghost use Rattle.std.specs.Prelude.{◌≡◌, IfOk};
ghost use Rattle.gm_base.specs.Sets.{has};
ghost use Rattle.lrat_export.specs.Table.{IsTableOf};

use gm_base::GroupSet;
use std::alloc::{AllocError, Global};
use std::marker::Model;

/// A set of groups, and for each group of a problem whether it is in the set.
#[derive(Drop)]
pub struct GroupTable<'a> {
    set: &'a GroupSet,
    table: Vec<bool>,
}

impl<'a> Model for GroupTable<'a> {
    ghost use Rattle.std.specs.Prelude.{List, ℕ};
    ghost use Rattle.lrat_export.specs.Table.{IsTableOf};

    ghost Value = { List ℕ };

    ghost view = { λ groups. groups.set.now };

    ghost invariant = { λ groups. IsTableOf groups.set.now groups.table.items };
}

impl<'a> GroupTable<'a> {
    /// The set, with a byte for each group up to this one.
    pub fn new(alloc: Global, set: &'a GroupSet, groups: u32) -> Result<GroupTable<'a>, AllocError>
        ensures { IfOk result (λ table. table ≡ set.now) }
    {
        let table = table_of(alloc, set, groups)?;
        Ok(GroupTable { set, table })
    }

    pub fn contains(&self, g: u32) -> bool
        ensures { result ≡ has self.now g }
    {
        let at = g as usize;
        if at < self.table.len() {
            return self.table[at];
        }
        self.set.contains(g)
    }
}

/// Whether each group up to this one is in the set, the background first.
fn table_of(alloc: Global, set: &GroupSet, groups: u32) -> Result<Vec<bool>, AllocError>
    ensures { IfOk result (λ table. IsTableOf set.now table.items) }
{
    let mut table = Vec::new(alloc);
    table.push(set.contains(0))?;
    for at in 0..groups {
        table.push(set.contains(at + 1))?;
    }
    Ok(table)
}
