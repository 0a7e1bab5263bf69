//! An enumeration that keeps a journal, from its workers to what is left of it and the journal's disk.
ghost use Rattle.std.specs.Prelude.{◌≡◌, true, All, IfOk, IfSome, length};
ghost use Rattle.turn_lock.specs.Seats.{AreNew};
ghost use Rattle.evidence_rec.specs.Records.{AllAccepted};
ghost use Rattle.evidence_rec.specs.Seeding.{new_engine};
ghost use Rattle.worker_pool.specs.Workers.{IsFresh};
ghost use Rattle.gm_words.specs.Requests.{AreGoodJobs};
ghost use Rattle.gm_io.specs.Evidence.{HasSmallIds};
ghost use Rattle.gm_io.specs.Resuming.{AreGoodFirst};
ghost use Rattle.gm_tool.specs.JournalSteps.{IsCrew, IsKept, IsReady, left_of};

use crate::enumeration::{fresh_map, fresh_oracles};
use evidence_rec::{Record, Records};
use gm_base::Problem;
use gm_io::{Bounds, Enumerated, ids_fit};
use gm_journal::laws::{kept_is_salvaged, texts_are_of_their_records};
use gm_journal::{Journal, JournalClosing, Seat};
use gm_ports::{Disk, Gate};
use group_oracle::GroupOracle;
use helping_oracle::Helping;
use lrat_steps::Logs;
use map_core::Closing;
use power_map::PowerMap;
use std::alloc::{AllocError, Global};
use std::sync::Wait;
use std::thread::Threads;
use worker_pool::{Outcome, enumerate};

/// All that an enumeration begins with but its records.
#[derive(Drop)]
pub struct Crew {
    pub oracles: Vec<Helping<GroupOracle>>,
    pub map: PowerMap,
}

/// A journal, and its seats.
#[derive(Drop)]
pub struct Pages<D: Disk> {
    pub journal: Journal<D>,
    pub seats: Vec<Seat<D>>,
}

/// What is left of an enumeration that kept a journal.
#[derive(Drop)]
pub struct Kept<D> {
    pub disk: D,
    /// Whether the disk failed.
    pub is_broken: bool,
    /// Nothing where memory was wanting before it began.
    pub left: Option<Enumerated>,
}

/// An oracle for each worker, which remembers these records, and a map.
pub fn fresh_crew<R: Threads + Sync>(
    rt: &R,
    alloc: Global,
    problem: &Problem,
    first: &[Record],
    bounds: Bounds,
) -> Result<Crew, AllocError>
    requires { AllAccepted problem.now first.now }
    ensures { IfOk result (IsCrew problem.now bounds) }
{
    let _groups = problem.groups(); // The problem is well-formed.
    Ok(Crew {
        oracles: fresh_oracles(rt, alloc, problem, first, bounds.jobs)?,
        map: fresh_map(alloc, problem.groups(), bounds.goal)?,
    })
}

/// Enumerates as `list_sets` does, and each new record is appended to the journal.
pub fn enumerate_into<D: Disk + Send + Drop, G: Gate, R: Threads + Wait + Sync>(
    rt: &R,
    alloc: Global,
    problem: &Problem,
    first: Records,
    crew: Crew,
    bounds: Bounds,
    gate: &G,
    pages: Pages<D>,
) -> Kept<D>
    requires jobs { AreGoodJobs bounds.jobs }
    requires first { AreGoodFirst problem.now first }
    requires crew { IsCrew problem.now bounds crew }
    requires journal { bounds.journal ≡ true }
    requires ready { IsReady problem.now first bounds pages }
    ensures { IsKept D.state problem.now first bounds pages.journal.opening.faults pages.journal.opening.name result }
{
    let _groups = problem.groups(); // The problem is well-formed.
    let Pages { journal, seats } = pages;
    let outcome = enumerate(
        rt,
        alloc,
        problem,
        first,
        crew.oracles,
        crew.map,
        bounds.conflicts,
        bounds.limit,
        bounds.goal,
        gate,
        Some((journal, seats)),
    );
    let Outcome {
        verdict: _,
        spent,
        logs,
        closing,
        broken,
        journal,
    } = outcome;
    let Some((journal, seats)) = journal else {
        unreachable!()
    };
    let JournalClosing::Ended(disk) = journal.close(seats) else {
        unreachable!()
    };
    kept_is_salvaged(&disk);
    texts_are_of_their_records();
    Kept {
        disk,
        is_broken: broken.is_some(),
        left: left_of(spent, logs, closing),
    }
}

/// What is left, where a board was closed. The ids of its records are ones that a text can hold.
fn left_of(spent: u64, logs: Logs, closing: Option<Closing>) -> Option<Enumerated>
    ensures left { result ≡ left_of spent logs closing }
    ensures ids { IfSome closing HasSmallIds }
{
    match closing {
        Some(closing) => {
            ids_fit(&closing);
            Some(Enumerated {
                spent,
                logs,
                closing,
            })
        }
        None => None,
    }
}
