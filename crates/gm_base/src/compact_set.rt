//! Sets of groups that are only kept.
//!
//! Among many groups a set mostly has few, or lacks few: a seed lacks about as many groups as a correction has. So a set that
//! is kept for long is the list of its groups, or that of the groups below its greatest one that it lacks, whichever is
//! shorter. Contracts see its groups in both forms.
ghost use Rattle.std.specs.Prelude.{◌≡◌, IfOk};
ghost use Rattle.gm_base.specs.Sets.{IsSubset, IsGroupSet, all_groups};

use crate::group_set::GroupSet;
use std::alloc::{AllocError, Global};
use std::marker::Model;

/// How a set is kept.
#[derive(Drop)]
pub enum Form {
    /// By its groups.
    Has(GroupSet),
    /// By its greatest group, and those below that it lacks.
    Lacks { greatest: u32, lacked: GroupSet },
}

/// A set of groups that takes as little memory as the groups that it has, or as those that it lacks.
#[derive(Drop)]
pub struct CompactSet {
    form: Form,
}

impl Model for CompactSet {
    ghost use Rattle.std.specs.Prelude.{List, ℕ};
    ghost use Rattle.gm_base.specs.Compact.{groups_of};

    ghost Value = { List ℕ };

    ghost view = { λ set. groups_of set.form };
}

impl CompactSet {
    /// A copy of a set.
    pub fn of(alloc: Global, set: &GroupSet) -> Result<CompactSet, AllocError>
        ensures { IfOk result (λ compact. compact ≡ set.now) }
    {
        let greatest = greatest_of(set);
        if set.len() <= (greatest / 2) as usize {
            let copy = set.copy(alloc)?;
            return Ok(CompactSet {
                form: Form::Has(copy),
            });
        }
        let lacked = set.complement(alloc, greatest)?;
        Ok(CompactSet {
            form: Form::Lacks { greatest, lacked },
        })
    }

    /// A set that is given away. Where there is no memory for another form, it stays as it is.
    pub fn from_set(alloc: Global, set: GroupSet) -> CompactSet
        ensures { result ≡ set }
    {
        match CompactSet::of(alloc, &set) {
            Ok(compact) => compact,
            Err(AllocError) => CompactSet {
                form: Form::Has(set),
            },
        }
    }

    /// The set as the list of its groups.
    pub fn to_set(&self, alloc: Global) -> Result<GroupSet, AllocError>
        ensures { IfOk result (λ set. set ≡ self.now) }
    {
        match &self.form {
            Form::Has(set) => set.copy(alloc),
            Form::Lacks { greatest, lacked } => lacked.complement(alloc, *greatest),
        }
    }
}

// The greatest group of a set, and 0 where it has none.
fn greatest_of(set: &GroupSet) -> u32
    ensures within { IsSubset set.now (all_groups result) }
    ensures ascends { IsGroupSet set.now }
{
    match set.as_slice().last() {
        Some(greatest) => *greatest,
        None => 0,
    }
}
