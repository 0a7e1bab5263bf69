//! What a reader answers.
use crate::offence::Offence;
use evidence_rec::Record;
use gm_base::Derivation;

/// What a reader answers.
#[derive(Drop)]
pub enum Answer {
    /// The next record.
    Record(Record),
    /// The end, with the closing part where the text is complete.
    End(Option<Derivation>),
    /// The first offence.
    Offence(Offence),
}
