//! The order in which groups are tried, and that in which their witnesses are kept.
//!
//! Groups that are tried last are told apart first. Their witnesses come last too, so in the end both lists are merged
//! along the set.
ghost use Rattle.std.specs.Prelude.{◌≡◌, ℕ, Bool, true, not, List, [], ◌∷◌, ◌++◌, IfOk, OnOk};
ghost use Rattle.std.specs.List.{filter};
ghost use Rattle.gm_base.specs.Sets.{IsGroupSet, has};
ghost use Rattle.gm_base.specs.Evidence.{each_passes};

use evidence_rec::Witnesses;
use gm_base::{Assign, GroupSet};
use std::alloc::{AllocError, Global};
use std::vec::IntoIter;

/// The groups of a set, ascending: those that are tried first, and those that are tried last.
#[derive(Drop)]
pub struct Parts {
    pub others: Vec<u32>,
    pub last: Vec<u32>,
}

/// Tells the groups of a set apart by whether they are in the other one.
pub fn parted(alloc: Global, set: &GroupSet, last: &GroupSet) -> Result<Parts, AllocError>
    ensures ascends { IsGroupSet set.now }
    ensures others { IfOk result (λ parts. parts.others.items ≡ filter (λ g. not (has last.now g)) set.now) }
    ensures last { IfOk result (λ parts. parts.last.items ≡ filter (has last.now) set.now) }
{
    let mut parts = Parts {
        others: Vec::new(alloc),
        last: Vec::new(alloc),
    };
    for g in set.as_slice() {
        if last.contains(*g) {
            parts.last.push(*g)?;
        } else {
            parts.others.push(*g)?;
        }
    }
    Ok(parts)
}

/// The witnesses of all groups of a set, in their order, from those of the others and those of the last ones, in just enough
/// memory: a record lives as long as the run.
pub fn in_order(
    alloc: Global,
    set: &GroupSet,
    last: &GroupSet,
    others: Witnesses,
    lasts: Witnesses,
) -> Result<Witnesses, AllocError>
    ensures { IfOk result (λ all. (test : ℕ → List Bool → Bool) → each_passes test (filter (λ g. not (has last.now g)) set.now) others ≡ true → each_passes test (filter (has last.now) set.now) lasts ≡ true → each_passes test set.now all ≡ true) }
{
    let mut all = Vec::with_capacity(alloc, set.len())?;
    let mut others = others.into_vec().into_iter();
    let mut lasts = lasts.into_vec().into_iter();
    for g in set.as_slice() {
        if last.contains(*g) {
            move_next(&mut lasts, &mut all)?;
        } else {
            move_next(&mut others, &mut all)?;
        }
    }
    Ok(Witnesses::from_vec(all))
}

// Moves the next one to the end of the others.
fn move_next(from: &mut IntoIter<Assign>, to: &mut Vec<Assign>) -> Result<(), AllocError>
    ensures { OnOk result ((w : List Bool) (rest : List (List Bool)) → from.old.rest.items ≡ w ∷ rest → (to.new.items ≡ to.old.items ++ w ∷ []) × (from.new.rest.items ≡ rest)) }
{
    if let Some(next) = from.next() {
        to.push(next)?;
    }
    Ok(())
}
