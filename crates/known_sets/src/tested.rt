//! The tests of what was looked up, on which each answer rests.
ghost use Rattle.std.specs.Prelude.{◌≡◌, not};
ghost use Rattle.std.specs.List.{list_all};
ghost use Rattle.gm_base.specs.Sets.{has, without, with_group};

use gm_base::GroupSet;

/// Whether each of these groups stands in the set with one group more.
pub fn are_within(groups: &[u32], set: &GroupSet, more: u32) -> bool
    ensures { result ≡ list_all (has (with_group set.now more)) groups.now }
{
    for group in groups {
        if !has_with(set, *group, more) {
            return false;
        }
    }
    true
}

// Whether a group stands in the set with another one.
fn has_with(set: &GroupSet, group: u32, more: u32) -> bool
    ensures { result ≡ has (with_group set.now more) group }
{
    group == more || set.contains(group)
}

/// Whether the set has none of these groups.
pub fn misses(set: &GroupSet, groups: &[u32]) -> bool
    ensures { result ≡ list_all (λ g. not (has set.now g)) groups.now }
{
    for group in groups {
        if set.contains(*group) {
            return false;
        }
    }
    true
}

/// Whether the set without one group has none of these groups.
pub fn misses_but(set: &GroupSet, groups: &[u32], but: u32) -> bool
    ensures { result ≡ list_all (λ g. not (has (without set.now but) g)) groups.now }
{
    for group in groups {
        if has_but(set, *group, but) {
            return false;
        }
    }
    true
}

// Whether a group stands in the set without another one.
fn has_but(set: &GroupSet, group: u32, but: u32) -> bool
    ensures { result ≡ has (without set.now but) group }
{
    group != but && set.contains(group)
}
