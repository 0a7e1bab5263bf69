//! The ids in records.
//!
//! No id is above the greatest one that a text can hold: the type of a derivation keeps that. It is asked of each of them
//! once, before its evidence is written, and so it is that no list has more records than a text can number.
ghost use Rattle.std.specs.List.{AllByRecursion};
ghost use Rattle.evidence_text.specs.Readable.{HasRecordIds};
ghost use Rattle.gm_io.specs.Evidence.{HasSmallIds};

use evidence_rec::Record;
use evidence_text::{count_fits, record_fits};
use map_core::Closing;

/// That the ids of a closing are small enough. It does nothing: the facts are what its callers want.
pub fn ids_fit(closing: &Closing)
    ensures { HasSmallIds closing.now }
{
    count_fits(closing.records.as_slice());
    records_fit(closing.records.as_slice());
    if let Some(proof) = &closing.proof {
        let _ = proof.goal();
    }
}

fn records_fit(records: &[Record])
    ensures { AllByRecursion HasRecordIds records.now }
{
    for made in records {
        record_fits(made);
    }
}
