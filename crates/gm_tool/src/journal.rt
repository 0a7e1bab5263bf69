//! A listing with a journal.
//!
//! It begins with the records that the journal holds, and each new record is on the journal's disk before the worker that found it
//! goes on. The disk is opened once the file is accepted. Where it fails later nothing else is written.
ghost use Rattle.std.specs.Prelude.{◌≡◌, ℕ, ◌+◌, ◌^◌, ◌<◌, true, List, Option, IfOk, IfErr, IfSome};
ghost use Rattle.gm_journal.specs.Salvage.{HoldsRecords};
ghost use Rattle.gm_words.specs.Requests.{AreGoodJobs, text_of};
ghost use Rattle.gm_io.specs.Endings.{finish_of};
ghost use Rattle.gm_io.specs.Outside.{outside};
ghost use Rattle.gm_io.specs.Resuming.{AreGoodFirst};
ghost use Rattle.gm_tool.specs.Journaled.{EndsJournaled, IsNamed};
ghost use Rattle.gm_tool.specs.JournalSteps.{EndsKept, HasEnded, IsOpened, Keeps, KeepsFrom, RefusesJournal, StopsOpening, StopsSalvaging, closing_in, with_journal};

use crate::kept::{Pages, enumerate_into, fresh_crew};
use crate::list::put_out;
use gm_base::Problem;
use gm_io::{Bounds, Ending, Enumerated, line_of_foreign, read_named};
use gm_journal::{Journal, JournalRead, Salvaged, Started, salvage};
use gm_ports::{Disk, Failed, Files, Gate, Sink};
use gm_words::Listing;
use map_core::Goal;
use std::alloc::{AllocError, Global};
use std::sync::Wait;
use std::thread::Threads;

/// Lists the file that is named, from the records of the journal of this name, which gets the new ones.
pub fn list_journaled<D: Disk + Send + Drop, F: Files, O: Sink, G: Gate, R: Threads + Wait + Sync>(
    rt: &R,
    alloc: Global,
    listing: Listing<'_>,
    name: &str,
    files: &mut F,
    out: &mut O,
    gate: &G,
    disk: D,
) -> (Ending, D)
    requires { AreGoodJobs listing.jobs }
    ensures { EndsJournaled D.state (with_journal listing.entry name.now) name.now disk result.1 (outside (F.state files.old) (O.got out.old) (O.faults out.old))
        (outside (F.state files.new) (O.got out.new) (O.faults out.new)) result.0 }
{
    let Listing {
        file,
        jobs,
        conflicts,
        limit,
        evidence,
        resume: _,
        journal: _,
        focus,
    } = listing;
    let bounds = Bounds {
        jobs,
        conflicts,
        limit,
        goal: Goal::All,
        journal: true,
    };
    match read_named(alloc, file, focus, files) {
        Ok(problem) => list_into(
            rt, alloc, &problem, bounds, evidence, name, files, out, gate, disk,
        ),
        Err(ending) => (ending, disk),
    }
}

/// Lists a problem, from the records of the journal of this name.
fn list_into<D: Disk + Send + Drop, F: Files, O: Sink, G: Gate, R: Threads + Wait + Sync>(
    rt: &R,
    alloc: Global,
    problem: &Problem,
    bounds: Bounds,
    evidence: Option<&str>,
    name: &str,
    files: &mut F,
    out: &mut O,
    gate: &G,
    mut disk: D,
) -> (Ending, D)
    requires jobs { AreGoodJobs bounds.jobs }
    requires all { bounds.goal ≡ Goal.All }
    requires journal { bounds.journal ≡ true }
    ensures { Keeps D.state problem.now bounds (text_of evidence.entry) name.now disk result.1 (outside (F.state files.old) (O.got out.old) (O.faults out.old))
        (outside (F.state files.new) (O.got out.new) (O.faults out.new)) result.0 }
{
    match open_journal(alloc, problem, name, &mut disk) {
        Ok(salvaged) => list_from(
            rt, alloc, problem, bounds, evidence, salvaged, files, out, gate, disk,
        ),
        Err(ending) => (ending, disk),
    }
}

/// Opens the journal of this name and reads its records. Or ends with what stopped it.
fn open_journal<D: Disk>(
    alloc: Global,
    problem: &Problem,
    name: &str,
    disk: &mut D,
) -> Result<Salvaged, Ending>
    ensures opened { IfOk result (IsOpened D.state problem.now ((D.state disk.old).held name.now) name.now (D.state disk.old).faults disk.new) }
    ensures stopped { IfErr result (StopsOpening D.state problem.now ((D.state disk.old).held name.now) disk.old disk.new) }
{
    match disk.open_disk(name) {
        Ok(()) => read_journal(alloc, problem, disk),
        Err(Failed) => Err(Ending::JournalUnread),
    }
}

/// Reads the records of a journal that is opened. Or ends with what stopped it.
fn read_journal<D: Disk>(alloc: Global, problem: &Problem, disk: &mut D) -> Result<Salvaged, Ending>
    ensures opened { (held : Option (List ℕ)) (name : List ℕ) (faults : ℕ) → (D.state disk.old).reads ≡ held → (D.state disk.old).faults ≡ faults → IsNamed held name (D.state disk.old) →
        IfOk result (IsOpened D.state problem.now held name faults disk.new) }
    ensures stopped { (held : Option (List ℕ)) (faults : ℕ) → (D.state disk.old).reads ≡ held → (D.state disk.old).faults ≡ faults →
        IfErr result (StopsSalvaging D.state problem.now held faults disk.new) }
{
    match salvage(alloc, problem, disk) {
        JournalRead::Salvaged(salvaged) => Ok(salvaged),
        JournalRead::Foreign { at } => Err(refuse_journal(alloc, at)),
        JournalRead::Failed => Err(Ending::JournalUnread),
        JournalRead::Memory => Err(Ending::Memory),
    }
}

/// Ends with the line that tells the place.
fn refuse_journal(alloc: Global, at: u64) -> Ending
    ensures { RefusesJournal at result }
{
    match line_of_foreign(alloc, at) {
        Ok(line) => Ending::JournalRefused(line),
        Err(AllocError) => Ending::Memory,
    }
}

/// Lists a problem, from what was read of the journal.
fn list_from<D: Disk + Send + Drop, F: Files, O: Sink, G: Gate, R: Threads + Wait + Sync>(
    rt: &R,
    alloc: Global,
    problem: &Problem,
    bounds: Bounds,
    evidence: Option<&str>,
    salvaged: Salvaged,
    files: &mut F,
    out: &mut O,
    gate: &G,
    disk: D,
) -> (Ending, D)
    requires jobs { AreGoodJobs bounds.jobs }
    requires all { bounds.goal ≡ Goal.All }
    requires journal { bounds.journal ≡ true }
    requires first { AreGoodFirst problem.now salvaged.records }
    requires gate { salvaged.gate + 1 < 2 ^ 64 }
    requires read { IfSome (D.state disk).reads (λ bytes. HoldsRecords problem.now bytes salvaged.records salvaged.gate salvaged.last) }
    ensures { KeepsFrom D.state problem.now bounds (text_of evidence.entry) salvaged.records disk result.1 (outside (F.state files.old) (O.got out.old) (O.faults out.old))
        (outside (F.state files.new) (O.got out.new) (O.faults out.new)) result.0 }
{
    let crew = fresh_crew(rt, alloc, problem, salvaged.records.as_slice(), bounds);
    let Ok(crew) = crew else {
        return (Ending::Memory, disk);
    };
    match Journal::start(alloc, disk, problem, salvaged, bounds.jobs) {
        Started::Opened {
            journal,
            seats,
            records,
        } => {
            let pages = Pages { journal, seats };
            let kept = enumerate_into(rt, alloc, problem, records, crew, bounds, gate, pages);
            let ending = end_listing(
                alloc,
                problem,
                bounds,
                evidence,
                kept.is_broken,
                kept.left,
                files,
                out,
            );
            (ending, kept.disk)
        }
        Started::Failed { disk } => (Ending::JournalUnbegun, disk),
        Started::Memory { disk } => (Ending::Memory, disk),
    }
}

/// Writes what is left of an enumeration, unless the journal failed.
fn end_listing<F: Files, O: Sink>(
    alloc: Global,
    problem: &Problem,
    bounds: Bounds,
    evidence: Option<&str>,
    is_broken: bool,
    left: Option<Enumerated>,
    files: &mut F,
    out: &mut O,
) -> Ending
    requires all { bounds.goal ≡ Goal.All }
    requires left { (first : List _) × HasEnded problem.now first bounds is_broken left }
    ensures closing { IfSome (finish_of result).closing (λ closing. closing_in left ≡ Some closing) }
    ensures kept { (first : List _) → HasEnded problem.now first bounds is_broken left → EndsKept problem.now bounds (text_of evidence.entry) first is_broken
        (outside (F.state files.old) (O.got out.old) (O.faults out.old)) (outside (F.state files.new) (O.got out.new) (O.faults out.new)) result }
{
    let Some(left) = left else {
        return Ending::Memory;
    };
    if is_broken {
        return Ending::JournalCutOff(left);
    }
    put_out(alloc, problem, left, None, bounds, evidence, files, out)
}
