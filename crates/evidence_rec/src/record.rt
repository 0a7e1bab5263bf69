//! Records.
ghost use Rattle.std.specs.Prelude.{◌≡◌, not};
ghost use Rattle.std.specs.List.{list_all};
ghost use Rattle.gm_base.specs.Sets.{has, without};
ghost use Rattle.evidence_rec.specs.Records.{kind_of, set_of, is_inside};
ghost use Rattle.evidence_rec.specs.Refusals.{steps_in};

use crate::lists::{Proofs, Witnesses};
use gm_base::{Assign, Derivation, GroupSet, Kind};

/// Why a group of a correction can't be kept beside all groups outside it.
#[derive(Drop)]
pub enum Refutation {
    /// A derivation of that.
    Steps(Derivation),
    /// The number, from 1, of an earlier record: a conflict of groups outside the correction and this one.
    Earlier(u64),
}

impl Refutation {
    /// How many steps it has.
    pub fn len(&self) -> usize
        ensures { result ≡ steps_in self.now }
    {
        match self {
            Refutation::Steps(proof) => proof.len(),
            Refutation::Earlier(_) => 0,
        }
    }
}

/// A set of groups with the evidence for it.
#[derive(Drop)]
pub enum Record {
    /// A minimal conflict: a refutation of the set, and for each of its groups, ascending, an assignment that satisfies the
    /// background and the others.
    Conflict {
        set: GroupSet,
        proof: Derivation,
        witnesses: Witnesses,
    },
    /// A minimal correction: an assignment that satisfies the background and all groups outside the set, and for each group
    /// of the set, ascending, a refutation of those together with it.
    Correction {
        set: GroupSet,
        witness: Assign,
        proofs: Proofs,
    },
}

impl Record {
    pub fn kind(&self) -> Kind
        ensures { result ≡ kind_of self.now }
    {
        match self {
            Record::Conflict { .. } => Kind::Conflict,
            Record::Correction { .. } => Kind::Correction,
        }
    }

    pub fn set(&self) -> &GroupSet
        ensures { result.now ≡ set_of self.now }
    {
        match self {
            Record::Conflict { set, .. } | Record::Correction { set, .. } => set,
        }
    }

    /// Whether it is a conflict that has no group of the correction `set` but, maybe, this one.
    pub fn is_inside(&self, set: &GroupSet, group: u32) -> bool
        ensures { result ≡ is_inside set.now group self.now }
    {
        match self {
            Record::Conflict { set: groups, .. } => are_apart(groups, set, group),
            Record::Correction { .. } => false,
        }
    }

    /// Its set, without the evidence.
    pub fn into_set(self) -> GroupSet
        ensures { result ≡ set_of self }
    {
        match self {
            Record::Conflict {
                set,
                proof: _,
                witnesses: _,
            } => set,
            Record::Correction {
                set,
                witness: _,
                proofs: _,
            } => set,
        }
    }
}

// Whether the correction has none of the groups but, maybe, this one. The groups of the lesser set are looked for in the
// other one.
fn are_apart(groups: &GroupSet, set: &GroupSet, group: u32) -> bool
    ensures { result ≡ list_all (λ h. not (has (without set.now group) h)) groups.now }
{
    if groups.len() < set.len() {
        are_others_outside(groups, set, group)
    } else {
        has_no_other(groups, set, group)
    }
}

// The same, by the groups of the conflict.
fn are_others_outside(groups: &GroupSet, set: &GroupSet, group: u32) -> bool
    ensures { result ≡ list_all (λ h. not (has (without set.now group) h)) groups.now }
{
    for other in groups.as_slice() {
        if is_another(set, group, *other) {
            return false;
        }
    }
    true
}

// The same, by the groups of the correction.
fn has_no_other(groups: &GroupSet, set: &GroupSet, group: u32) -> bool
    ensures { result ≡ list_all (λ h. not (has (without set.now group) h)) groups.now }
{
    for other in set.as_slice() {
        if is_another(groups, group, *other) {
            return false;
        }
    }
    true
}

// Whether it is a group of the set, and not this one.
fn is_another(set: &GroupSet, group: u32, other: u32) -> bool
    ensures { result ≡ has (without set.now group) other }
{
    other != group && set.contains(other)
}
