//! Records that a trial wrote.
ghost use Rattle.std.specs.Prelude.{◌≡◌, All, IfOk, OnOk, IsTrue, List, Bool, length};
ghost use Rattle.evidence_rec.specs.Records.{IsShaped, IsAcceptedAlone};

use evidence_rec::{Record, Records, Witnesses, check_record};
use gm_base::{GroupSet, Problem};
use std::alloc::{AllocError, AllocFailed, Global};

/// What was wanting.
#[derive(Clone, Copy, Debug)]
pub enum Lacking {
    Memory,
    /// The evidence of a record does not show what it says.
    Evidence,
}

impl From<AllocError> for Lacking {
    fn from(_: AllocError) -> Lacking {
        Lacking::Memory
    }
}

impl<T: Drop> From<AllocFailed<T>> for Lacking {
    fn from(_: AllocFailed<T>) -> Lacking {
        Lacking::Memory
    }
}

/// The record, where its evidence shows what it says with no record before it.
pub fn checked(alloc: Global, problem: &Problem, record: Record) -> Result<Record, Lacking>
    ensures accepted { IfOk result (IsAcceptedAlone problem.now) }
    ensures same { IfOk result (λ r. r ≡ «record») }
{
    accept(alloc, problem, &record)?;
    Ok(record)
}

// Refuses a record whose evidence does not show what it says.
fn accept(alloc: Global, problem: &Problem, record: &Record) -> Result<(), Lacking>
    ensures { OnOk result (IsAcceptedAlone problem.now «record».now) }
{
    if is_accepted(alloc, problem, record)? {
        Ok(())
    } else {
        Err(Lacking::Evidence)
    }
}

fn is_accepted(alloc: Global, problem: &Problem, record: &Record) -> Result<bool, AllocError>
    ensures { IfOk result (λ is. IsTrue is → IsAcceptedAlone problem.now «record».now) }
{
    let all = GroupSet::new(alloc).complement(alloc, problem.groups())?;
    if !record.set().is_subset(&all) || !is_shaped(problem, record) {
        return Ok(false);
    }
    let none = Records::new(alloc);
    let verdict = check_record(alloc, problem, &none, record)?;
    Ok(verdict.is_ok())
}

/// Whether the record has evidence for each of its groups, and assignments to the problem's variables.
pub fn is_shaped(problem: &Problem, record: &Record) -> bool
    ensures { IsTrue result → IsShaped problem.now «record».now }
{
    match record {
        Record::Conflict { set, witnesses, .. } => {
            witnesses.len() == set.len() && have_len(problem.vars(), witnesses)
        }
        Record::Correction {
            set,
            witness,
            proofs,
        } => witness.len() == problem.vars() as usize && proofs.len() == set.len(),
    }
}

fn have_len(vars: u32, witnesses: &Witnesses) -> bool
    ensures { IsTrue result → All (λ (w : List Bool). length w ≡ vars) witnesses.now }
{
    for at in 0..witnesses.len() {
        if witnesses.at(at).len() != vars as usize {
            return false;
        }
    }
    true
}
