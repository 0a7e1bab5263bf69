//! What shrinking ends with.
use evidence_rec::Record;
use gm_base::GroupSet;

/// What shrinking ended with.
#[derive(Drop)]
pub enum Shrunk {
    /// A minimal conflict within the set, with its evidence.
    Done(Record),
    /// The oracle's purse is empty. This is the set that it was asked about last.
    Dry(GroupSet),
}
