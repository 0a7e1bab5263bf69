//! What growing ends with.
use evidence_rec::Record;
use gm_base::GroupSet;

/// What growing ended with.
#[derive(Drop)]
pub enum Grown {
    /// A minimal correction that has no group of the set, with its evidence.
    Done(Record),
    /// The oracle's purse is empty. This is the set that it was asked about last.
    Dry(GroupSet),
}
