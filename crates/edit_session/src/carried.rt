//! What carrying ends with.
use evidence_rec::Records;
use gm_base::GroupSet;

/// What carrying ended with.
#[derive(Drop)]
pub enum Carried {
    /// Records of the longer problem, with which its enumeration opens.
    Opening(Records),
    /// The oracle's purse is empty. This is the set that it was asked about last.
    Dry(GroupSet),
}
