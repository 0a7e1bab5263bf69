//! Candidates for a minimal conflict.
use evidence_rec::Witnesses;
use gm_base::{Derivation, GroupSet};

/// An unsatisfiable set with its refutation, and the witnesses of those of its groups that are known to be critical.
#[derive(Drop)]
pub struct Candidate {
    pub set: GroupSet,
    pub proof: Derivation,
    pub witnesses: Witnesses,
}
