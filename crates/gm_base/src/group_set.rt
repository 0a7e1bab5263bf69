//! Sets of groups.
//!
//! A set of groups is kept as the ascending list of its numbers, and contracts see that list. Group 0, the background,
//! is in none: it is always present. Because the list ascends, a group is found by halving, and two sets compare as
//! their lists do, a prefix first.
ghost use Rattle.std.specs.Prelude.{◌≡◌, ◌<◌, ◌↔◌, [], ◌∷◌, ◌++◌, IsTrue, IfOk, IsSome, OnOk, OnErr, length};
ghost use Rattle.std.specs.Option.{option_to_list};
ghost use Rattle.gm_base.specs.Sets.{has, IsSubset, IsGroupSet, without, with_group, complement};

use std::alloc::{AllocError, Global};
use std::cmp::Ordering;
use std::marker::Model;

/// Strictly ascending group numbers from 1 on.
#[derive(Drop)]
pub struct GroupSet {
    groups: Vec<u32>,
}

impl Model for GroupSet {
    ghost use Rattle.std.specs.Prelude.{List, ℕ};
    ghost use Rattle.gm_base.specs.Sets.{IsGroupSet};

    ghost Value = { List ℕ };

    ghost view = { λ set. set.groups.items };

    ghost invariant = { λ set. IsGroupSet set.groups.items };
}

impl GroupSet {
    /// The empty set. It takes no memory.
    pub fn new(alloc: Global) -> Self
        ensures { result ≡ [] }
    {
        GroupSet {
            groups: Vec::new(alloc),
        }
    }

    /// Its groups, ascending.
    pub fn as_slice(&self) -> &[u32]
        ensures groups { result.now ≡ self.now }
        ensures ascends { IsGroupSet self.now }
    {
        self.groups.as_slice()
    }

    pub fn len(&self) -> usize
        ensures { result ≡ length self.now }
    {
        self.groups.len()
    }

    pub fn is_empty(&self) -> bool
        ensures { IsTrue result ↔ (self.now ≡ []) }
    {
        self.groups.is_empty()
    }

    /// Adds a group that is above all groups of the set.
    pub fn push(&mut self, g: u32) -> Result<(), AllocError>
        requires { IsGroupSet (self.old ++ g ∷ []) }
        ensures ok { OnOk result (self.new ≡ self.old ++ g ∷ []) }
        ensures err { OnErr result (self.new ≡ self.old) }
    {
        self.groups.push(g)?;
        Ok(())
    }

    /// Takes out the greatest group.
    pub fn pop(&mut self) -> Option<u32>
        ensures groups { self.old ≡ self.new ++ option_to_list result }
        ensures some { IsSome result ↔ (0 < length self.old) }
    {
        self.groups.pop()
    }

    pub fn copy(&self, alloc: Global) -> Result<GroupSet, AllocError>
        ensures { IfOk result (λ set. set ≡ self.now) }
    {
        let groups = Vec::from_slice(alloc, self.groups.as_slice())?;
        Ok(GroupSet { groups })
    }

    pub fn contains(&self, g: u32) -> bool
        ensures { result ≡ has self.now g }
    {
        self.groups.binary_search(&g).is_ok()
    }

    /// Whether each group of this set is in the other.
    pub fn is_subset(&self, other: &GroupSet) -> bool
        ensures { IsTrue result ↔ IsSubset self.now other.now }
    {
        for g in &self.groups {
            if !other.contains(*g) {
                return false;
            }
        }
        true
    }

    /// A copy with one group taken out, which need not be in it.
    pub fn without(&self, alloc: Global, g: u32) -> Result<GroupSet, AllocError>
        ensures { IfOk result (λ set. set ≡ without self.now g) }
    {
        let mut groups = Vec::new(alloc);
        for h in &self.groups {
            if *h != g {
                groups.push(*h)?;
            }
        }
        Ok(GroupSet { groups })
    }

    /// A copy with a group, which may be in it already.
    pub fn with(&self, alloc: Global, g: u32) -> Result<GroupSet, AllocError>
        requires { 0 < g }
        ensures { IfOk result (λ set. set ≡ with_group self.now g) }
    {
        let mut groups = Vec::new(alloc);
        'lower: for h in &self.groups {
            if *h < g {
                groups.push(*h)?;
            }
        }
        groups.push(g)?;
        'higher: for h in &self.groups {
            if *h > g {
                groups.push(*h)?;
            }
        }
        Ok(GroupSet { groups })
    }

    /// All groups up to this one that are not in the set.
    pub fn complement(&self, alloc: Global, groups: u32) -> Result<GroupSet, AllocError>
        ensures { IfOk result (λ set. set ≡ complement groups self.now) }
    {
        let mut rest = Vec::new(alloc);
        let mut at = 0;
        for i in 0..groups {
            let g = i + 1;
            if at < self.groups.len() && self.groups[at] == g {
                at += 1;
            } else {
                rest.push(g)?;
            }
        }
        Ok(GroupSet { groups: rest })
    }
}

impl PartialEq for GroupSet {
    ghost use Rattle.std.specs.Bool.{nat_eq};
    ghost use Rattle.std.specs.Cmp.Lexicographic.{pointwise, lists_per};
    ghost use Rattle.std.specs.Cmp.Rules.{comparing};
    ghost use Rattle.std.proofs.Common.{rules};

    ghost eq = { pointwise nat_eq };

    ghost laws = { lists_per (Prim.search (comparing, rules)) };

    fn eq(&self, other: &GroupSet) -> bool {
        self.groups == other.groups
    }
}

impl Eq for GroupSet {
    ghost use Rattle.std.specs.Cmp.Lexicographic.{nat_list_eq_equiv};

    ghost laws = { nat_list_eq_equiv };
}

impl PartialOrd for GroupSet {
    ghost use Rattle.std.specs.Prelude.{Some};
    ghost use Rattle.std.specs.Ordering.{nat_cmp};
    ghost use Rattle.std.specs.Cmp.Lexicographic.{slice_cmp, texts_po};

    ghost partial_cmp = { λ x y. Some (slice_cmp nat_cmp x y) };

    ghost laws = { texts_po };

    fn partial_cmp(&self, other: &GroupSet) -> Option<Ordering> {
        Some(self.groups.cmp(&other.groups))
    }
}

/// The order of the lists of group numbers, compared as numbers, a prefix first.
impl Ord for GroupSet {
    ghost use Rattle.std.specs.Prelude.{refl};
    ghost use Rattle.std.specs.Ordering.{nat_cmp};
    ghost use Rattle.std.specs.Cmp.Lexicographic.{slice_cmp, nat_list_cmp_total, texts_ties};

    ghost cmp = { slice_cmp nat_cmp };

    ghost total = { nat_list_cmp_total };

    ghost matches_partial_cmp = { λ _ _. refl };

    ghost matches_eq = { texts_ties };

    fn cmp(&self, other: &GroupSet) -> Ordering {
        self.groups.cmp(&other.groups)
    }
}
