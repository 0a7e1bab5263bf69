//! A journal that goes on, from one seat.
ghost use Rattle.std.specs.Prelude.{◌≡◌, ◌+◌, ◌^◌, ◌<◌, IfOk, IfSome};
ghost use Rattle.gm_ports.specs.MemDisk.{disk_state};
ghost use Rattle.gm_journal.specs.Salvage.{HoldsRecords};
ghost use Rattle.gm_journal.specs.Histories.{IsOfRecord};
ghost use Rattle.evidence_trials.specs.Seats.{HasJournalSeat};

use crate::journals::push_sets;
use evidence_text::{RecordAnswer, RecordText, record_of};
use gm_base::Problem;
use gm_journal::{
    Appended, Journal, JournalClosing, JournalRead, Salvaged, Seat, Started, salvage,
};
use gm_ports::MemDisk;
use lawful_fakes::{Lacking, checked};
use std::alloc::{AllocError, Global};
use std::sync::Wait;
use trial_script::{Step, show};

/// A journal about a problem on a disk in memory, its one seat, and whether that may still append.
#[derive(Drop)]
pub(crate) struct Running {
    problem: Problem,
    journal: Journal<MemDisk>,
    seat: Seat<MemDisk>,
    may_append: bool,
    ghost of: { journal.opening.problem ≡ problem },
    ghost seated: { HasJournalSeat journal may_append seat },
}

/// Goes on behind what a salvage gives of the disk, and shows the sets of its records, or why there is no journal.
pub(crate) fn started(
    alloc: Global,
    problem: Problem,
    mut disk: MemDisk,
    out: &mut String,
) -> Result<Option<Running>, AllocError> {
    match salvage(alloc, &problem, &mut disk) {
        JournalRead::Salvaged(salvaged) => opened(alloc, problem, disk, salvaged, out),
        JournalRead::Foreign { at } => {
            writeln!(out, "foreign at {at}")?;
            Ok(None)
        }
        JournalRead::Failed => {
            show("failed", out)?;
            Ok(None)
        }
        JournalRead::Memory => Err(AllocError),
    }
}

fn opened(
    alloc: Global,
    problem: Problem,
    disk: MemDisk,
    salvaged: Salvaged,
    out: &mut String,
) -> Result<Option<Running>, AllocError>
    requires gate { salvaged.gate + 1 < 2 ^ 64 }
    requires read { IfSome (disk_state disk).reads (λ bytes. HoldsRecords problem bytes salvaged.records salvaged.gate salvaged.last) }
{
    match Journal::start(alloc, disk, &problem, salvaged, 1) {
        Started::Opened {
            journal,
            mut seats,
            records,
        } => {
            out.push_str("opened")?;
            push_sets(records.as_slice(), out)?;
            show("", out)?;
            Ok(Some(Running {
                problem,
                journal,
                seat: seats.remove(0),
                may_append: true,
            }))
        }
        Started::Failed { disk: _ } => {
            show("failed", out)?;
            Ok(None)
        }
        Started::Memory { disk: _ } => Err(AllocError),
    }
}

impl Running {
    /// Appends the record whose lines the call's text is, and shows the answer.
    pub(crate) fn append<R: Wait>(
        &mut self,
        rt: &R,
        alloc: Global,
        step: &Step<'_>,
        out: &mut String,
    ) -> Result<bool, AllocError> {
        if !self.may_append {
            return Ok(false);
        }
        let Some(text) = text_of(alloc, &self.problem, step.text())? else {
            return Ok(false);
        };
        let reply = self.journal.append(rt, &mut self.seat, text);
        self.may_append = reply != Appended::Memory;
        show_reply(reply, out)
    }

    /// Ends the journal, and gives its problem and its disk.
    pub(crate) fn close(self, alloc: Global) -> Result<(Problem, MemDisk), AllocError> {
        let Running {
            problem,
            journal,
            seat,
            may_append: _,
        } = self;
        let mut seats = Vec::with_capacity(alloc, 1)?;
        seats.push_reserved(seat);
        match journal.close(seats) {
            JournalClosing::Ended(disk) => Ok((problem, disk)),
            // A journal needs no memory to close.
            JournalClosing::Held(_, _) => unreachable!(),
        }
    }
}

/// The text of the record whose lines these are, where it is accepted with none before it.
fn text_of(alloc: Global, problem: &Problem, lines: &[u8]) -> Result<Option<RecordText>, AllocError>
    ensures { IfOk result (λ found. IfSome found (IsOfRecord problem.now)) }
{
    let RecordAnswer::Record(record) = record_of(alloc, problem, lines)? else {
        return Ok(None);
    };
    match checked(alloc, problem, record) {
        Ok(record) => Ok(Some(RecordText::new(alloc, problem, &record)?)),
        Err(Lacking::Evidence) => Ok(None),
        Err(Lacking::Memory) => Err(AllocError),
    }
}

fn show_reply(reply: Appended, out: &mut String) -> Result<bool, AllocError> {
    match reply {
        Appended::Ok => show("ok", out),
        Appended::Already => show("already", out),
        Appended::Closed => show("closed", out),
        Appended::Failed(count) => {
            writeln!(out, "failed {count}")?;
            Ok(true)
        }
        Appended::Memory => Err(AllocError),
    }
}
