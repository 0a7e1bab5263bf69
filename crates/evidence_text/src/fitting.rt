//! That a text can hold what is to be written.
//!
//! The types of a problem and of a record keep their numbers small enough for a text. These calls do nothing: the fact is
//! what their callers want, with which what they write of accepted records is read back.
ghost use Rattle.std.specs.Prelude.{◌≤◌, length};
ghost use Rattle.std.specs.List.{AllByRecursion};
ghost use Rattle.sat_base.specs.Derivation.{max_id};
ghost use Rattle.evidence_text.specs.Readable.{IsSmall, HasRecordIds, HasRefutationIds};

use evidence_rec::{Proofs, Record, Refutation};
use gm_base::Problem;

/// That the head can hold the numbers of a problem.
pub fn problem_fits(problem: &Problem)
    ensures { IsSmall problem.now }
{
    let _groups = problem.groups();
    let _clauses = problem.len();
}

/// That lines can hold the numbers of records.
pub fn count_fits(records: &[Record])
    ensures { length records.now ≤ max_id }
{
    let _count = records.len();
}

/// That lines can hold the ids of a record.
pub fn record_fits(r: &Record)
    ensures { HasRecordIds r.now }
{
    match r {
        Record::Conflict { proof, .. } => {
            let _goal = proof.goal();
        },
        Record::Correction { proofs, .. } => proofs_fit(proofs),
    }
}

fn proofs_fit(proofs: &Proofs)
    ensures { AllByRecursion HasRefutationIds proofs.now }
{
    for at in 0..proofs.len() {
        refutation_fits(proofs.at(at));
    }
}

fn refutation_fits(refutation: &Refutation)
    ensures { HasRefutationIds refutation.now }
{
    if let Refutation::Steps(proof) = refutation {
        let _goal = proof.goal();
    }
}
