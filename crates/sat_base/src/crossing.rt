//! That values may go to other threads, and be read by several at once.
//!
//! A lack would show only where a crate far above starts a thread. The check of these calls is the proof, here.
use crate::assign::{Assign, AssignBuilder};
use crate::derivation::{Derivation, DerivationBuilder};
use crate::lit::Lits;
use crate::purse::Purse;
use crate::worklist::WorkList;

fn crosses<T: Send + Sync>(_value: &T) {}

pub(crate) fn values_cross(assign: &Assign, derivation: &Derivation, lits: &Lits, purse: &Purse) {
    crosses(assign);
    crosses(derivation);
    crosses(lits);
    crosses(purse);
}

pub(crate) fn what_is_being_made_crosses(
    assign: &AssignBuilder,
    derivation: &DerivationBuilder,
    work: &WorkList,
) {
    crosses(assign);
    crosses(derivation);
    crosses(work);
}
