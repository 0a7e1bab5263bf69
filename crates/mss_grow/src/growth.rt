//! Growing sets.
use evidence_rec::Proofs;
use gm_base::{Assign, GroupSet};

/// What is settled so far: the set at hand, an assignment that satisfies it, and a proof for each group that is left out.
#[derive(Drop)]
pub struct Growth {
    pub set: GroupSet,
    pub witness: Assign,
    pub proofs: Proofs,
}
