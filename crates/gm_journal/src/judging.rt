//! Which texts a journal may hold.
//!
//! A text is read as one record, its set is looked up among those so far, and its evidence is checked with no record before
//! it. One checker serves all records, and the sets are found in their order, so the last text costs no more than the first.
ghost use Rattle.std.specs.Prelude.{◌≡◌, ◌++◌, ◌∷◌, [], IfOk, OnOk};
ghost use Rattle.evidence_rec.specs.Basis.{basis_of};
ghost use Rattle.evidence_rec.specs.Index.{IsIndex};
ghost use Rattle.gm_journal.specs.Following.{MayFollow};
ghost use Rattle.gm_journal.specs.FollowingLaws.{follows-one_way};
ghost use Rattle.gm_journal.specs.Judging.{Judges};

use disk_frames::Judge;
use evidence_rec::{Held, Record, RecordChecker, Records};
use evidence_text::{RecordAnswer, problem_fits, record_of};
use gm_base::Problem;
use std::alloc::{AllocError, Global};
use std::marker::Model;

/// Reads and checks the records of a journal about one problem, one after another.
#[derive(Drop)]
pub(crate) struct RecordJudge<'a> {
    alloc: Global,
    problem: &'a Problem,
    checker: RecordChecker,
    held: Held,
    records: Vec<Record>,
}

impl<'a> Model for RecordJudge<'a> {
    ghost use Rattle.gm_journal.specs.Judging.{Judged, IsJudging};

    ghost Value = { Judged };

    ghost view = { λ j. record { problem = j.problem.now; records = j.records.items } };

    ghost invariant = { λ j. IsJudging j.problem.now j.records.items j.checker j.held };
}

impl<'a> RecordJudge<'a> {
    /// No record so far.
    pub(crate) fn new(alloc: Global, problem: &'a Problem) -> Result<RecordJudge<'a>, AllocError>
        ensures { IfOk result (λ judge. judge ≡ record { problem = problem.now; records = [] }) }
    {
        Ok(RecordJudge {
            alloc,
            problem,
            checker: RecordChecker::new(alloc, problem)?,
            held: Held::new(alloc),
            records: Vec::new(alloc),
        })
    }

    pub(crate) fn into_records(self) -> Records
        ensures { result ≡ self.entry.records }
    {
        let RecordJudge {
            alloc: _,
            problem: _,
            checker: _,
            held: _,
            records,
        } = self;
        Records::from_vec(records)
    }
}

impl<'a> Judge for RecordJudge<'a> {
    type Rule = Problem;

    type Kept = Records;

    ghost rule = { λ j. j.problem };

    ghost kept = { λ j. j.records };

    ghost fits = { MayFollow };

    fn take(&mut self, text: &[u8]) -> Result<bool, AllocError> {
        let found = next_record(
            self.alloc,
            self.problem,
            &mut self.checker,
            &self.held,
            text,
        )?;
        match found {
            None => Ok(false),
            Some(found) => {
                keep(self.alloc, &mut self.held, &mut self.records, found)?;
                Ok(true)
            }
        }
    }

    ghost one_way = { follows-one_way };
}

// The record of the text, where it may stand behind those whose sets are held.
fn next_record(
    alloc: Global,
    problem: &Problem,
    checker: &mut RecordChecker,
    held: &Held,
    text: &[u8],
) -> Result<Option<Record>, AllocError>
    requires { checker.old ≡ basis_of problem.now }
    ensures judges { IfOk result (Judges problem.now held.now text.now) }
    ensures same { checker.new ≡ checker.old }
{
    problem_fits(problem);
    let RecordAnswer::Record(found) = record_of(alloc, problem, text)? else {
        return Ok(None);
    };
    if held.has(found.kind(), found.set()) {
        return Ok(None);
    }
    let none = Records::new(alloc);
    let verdict = checker.check(alloc, problem, &none, &found)?;
    if verdict.is_ok() {
        Ok(Some(found))
    } else {
        Ok(None)
    }
}

// Keeps a record and its set, or neither.
fn keep(
    alloc: Global,
    held: &mut Held,
    records: &mut Vec<Record>,
    found: Record,
) -> Result<(), AllocError>
    requires { IsIndex held.old records.old.items }
    ensures kept { OnOk result (records.new.items ≡ records.old.items ++ found ∷ []) }
    ensures index { IsIndex held.new records.new.items }
{
    records.reserve(1)?;
    let set = found.set().copy(alloc)?;
    held.add(found.kind(), set)?;
    records.push_reserved(found);
    Ok(())
}
