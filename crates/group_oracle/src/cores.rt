//! Cores.
//!
//! The solver answers that a set cannot be satisfied by a clause that switches off some of its groups, one at least. Its
//! groups are the core. Its literals come in any order, and may be repeated, so their groups are sorted and taken once.
ghost use Rattle.std.specs.Prelude.{◌≡◌, ◌<◌, ◌-◌, map, IfOk, All};
ghost use Rattle.std.specs.List.Sorted.{IsNonDecreasingBy};
ghost use Rattle.sat_base.specs.Literals.{var_of};
ghost use Rattle.group_oracle.specs.Selectors.{AreOff, AreGroupsOf, IsSetOf};

use gm_base::{GroupSet, Lit};
use std::alloc::{AllocError, Global};

// The group of each literal.
fn group_numbers(alloc: Global, vars: u32, lits: &[Lit]) -> Result<Vec<u32>, AllocError>
    requires { AreOff vars lits.now }
    ensures { IfOk result (λ groups. groups.items ≡ map (λ l. var_of l - vars) lits.now) }
{
    let mut groups = Vec::with_capacity(alloc, lits.len())?;
    for lit in lits {
        groups.push(lit.var() - vars)?;
    }
    Ok(groups)
}

// The set of these groups, which come in order, and the same ones side by side.
fn set_of(alloc: Global, groups: &[u32]) -> Result<GroupSet, AllocError>
    requires ascends { IsNonDecreasingBy (λ g. g) groups.now }
    requires not_background { All (λ g. 0 < g) groups.now }
    ensures { IfOk result (λ set. IsSetOf groups.now set) }
{
    let mut set = GroupSet::new(alloc);
    let mut last = 0;
    for group in groups {
        if *group > last {
            set.push(*group)?;
            last = *group;
        }
    }
    Ok(set)
}

/// The groups that these literals switch off.
pub fn groups_off(alloc: Global, vars: u32, lits: &[Lit]) -> Result<GroupSet, AllocError>
    requires { AreOff vars lits.now }
    ensures { IfOk result (λ set. AreGroupsOf vars lits.now set) }
{
    let mut groups = group_numbers(alloc, vars, lits)?;
    groups.sort_unstable();
    set_of(alloc, groups.as_slice())
}
