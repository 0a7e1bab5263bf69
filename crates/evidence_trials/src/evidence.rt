//! The player of evidence: read, written and audited as a text, carried over, and checked record by record.
//!
//! ```text
//! problem            the problem of the GCNF text below, which all that follows is about
//! evidence           evidence that later calls change, below
//! read               the text below is read and written again; `read 8 9` is of the evidence, with these lines of it
//!                    replaced by those below
//! shorten            the text as it is written where each record is written behind those before it
//! head               its head is asked for twice
//! alone              the text below is read as one record by itself, and written again where it is accepted
//! audit              the text below is audited; `audit 8 9` likewise
//! carry              the evidence is carried over to the problem of the text below: where that breaks, or the records there
//! conflict 1 2       a record begins, with its set; `correction` likewise
//! proof 5            a derivation for the clause of this id begins
//! step 5 -3 -4 0 1 2 its next step: an id, literals, 0 and hints
//! earlier 1          a refutation: the earlier record of this number
//! witness 2          an assignment, by its true variables
//! check              the record is checked behind those that are kept
//! keep               the record is kept, and `check_kept` has one checker check all that were, each behind those before
//!                    it; none is kept then
//! ```
//!
//! What is refused is told by the number of its reason and its line: of the text, counted from 1, or of the record, from 0.
mod carrying;
mod drafting;
mod reading;
mod records;
mod text;

use carrying::show_carried;
use drafting::{Draft, call_draft};
use evidence_rec::{Record, Records};
use gm_base::Problem;
use records::{check_kept, check_one};
use std::alloc::{AllocError, Global};
use std::mem;
use text::call_text;
use trial_bases::problem_of;
use trial_script::{Player, Step, known};

/// Has a problem, evidence about it, and records.
#[derive(Drop)]
pub struct EvidencePlayer {
    problem: Option<Problem>,
    evidence: Vec<u8>,
    draft: Draft,
    kept: Records,
}

impl EvidencePlayer {
    pub fn new(alloc: Global) -> EvidencePlayer {
        EvidencePlayer {
            problem: None,
            evidence: Vec::new(alloc),
            draft: Draft::new(alloc),
            kept: Records::new(alloc),
        }
    }
}

impl Player for EvidencePlayer {
    fn begin(&mut self, alloc: Global) -> Result<(), AllocError> {
        *self = EvidencePlayer::new(alloc);
        Ok(())
    }

    fn call(
        &mut self,
        alloc: Global,
        step: &Step<'_>,
        out: &mut String,
    ) -> Result<bool, AllocError> {
        match step.word(0) {
            "problem" => self.read_problem(alloc, step),
            "evidence" => self.read_evidence(alloc, step),
            "read" | "shorten" | "head" | "alone" | "audit" => match &self.problem {
                Some(problem) => call_text(problem, self.evidence.as_slice(), alloc, step, out),
                None => Ok(false),
            },
            "carry" => match &self.problem {
                Some(problem) => show_carried(problem, self.evidence.as_slice(), alloc, step, out),
                None => Ok(false),
            },
            _ => match &self.problem {
                Some(problem) => {
                    call_records(problem, &mut self.draft, &mut self.kept, alloc, step, out)
                }
                None => Ok(false),
            },
        }
    }
}

impl EvidencePlayer {
    fn read_problem(&mut self, alloc: Global, step: &Step<'_>) -> Result<bool, AllocError> {
        self.problem = problem_of(alloc, step.text())?;
        Ok(self.problem.is_some())
    }

    fn read_evidence(&mut self, alloc: Global, step: &Step<'_>) -> Result<bool, AllocError> {
        self.evidence = Vec::from_slice(alloc, step.text())?;
        Ok(true)
    }
}

/// Makes a call that is about records.
fn call_records(
    problem: &Problem,
    draft: &mut Draft,
    kept: &mut Records,
    alloc: Global,
    step: &Step<'_>,
    out: &mut String,
) -> Result<bool, AllocError> {
    match step.word(0) {
        "check" => match whole_of(draft, alloc)? {
            Some(record) => check_one(problem, kept, &record, alloc, out),
            None => Ok(false),
        },
        "keep" => keep(kept, whole_of(draft, alloc)),
        "check_kept" => {
            let kept = mem::replace(kept, Records::new(alloc));
            check_kept(problem, kept, alloc, out)
        }
        _ => call_draft(draft, problem, alloc, step),
    }
}

/// The record that the pieces so far make, if they are enough. No piece is left.
fn whole_of(draft: &mut Draft, alloc: Global) -> Result<Option<Record>, AllocError> {
    let whole = mem::replace(draft, Draft::new(alloc));
    whole.finish(alloc)
}

fn keep(
    kept: &mut Records,
    record: Result<Option<Record>, AllocError>,
) -> Result<bool, AllocError> {
    match record? {
        Some(record) => known(kept.push(record)),
        None => Ok(false),
    }
}
