//! Workers that keep a journal, on a disk in memory.
//!
//! `journalled never : never : 8` has workers as `workers never : never` has (see `workers.rt`), which append what they find
//! to a journal on an empty disk; its calls of the numbers behind the last `:` fail, from 1. What is left is printed, then
//! whether an append failed, and the sets that a salvage of the disk's bytes gives.
ghost use Rattle.std.specs.Prelude.{◌≡◌, ◌<◌, ◌^◌, [], IfOk, IfSome};
ghost use Rattle.turn_lock.specs.Seats.{AreNew, AreAll};

use crate::workers::{map_of, numbers_of, oracles_of, say_records, tell_outcome};
use evidence_rec::Records;
use gm_base::Problem;
use gm_journal::{Journal, JournalClosing, JournalRead, Seat, Started, salvage};
use gm_ports::{Calls, MemDisk, OpenGate};
use lawful_fakes::Lacking;
use map_core::Goal;
use std::alloc::{AllocError, Global};
use std::sync::Wait;
use std::thread::Threads;
use trial_script::Step;
use trial_sets::{Played, lines_of, played, say};
use worker_pool::{Outcome, enumerate};

// Room on the disk for so many calls and bytes.
const CALLS: u64 = 60;

const BYTES: u64 = 2000;

pub fn play_journalled<R: Threads + Wait + Sync>(
    rt: &R,
    alloc: Global,
    problem: &Problem,
    step: &Step<'_>,
    out: &mut String,
) -> Played {
    let outcome = journalled(rt, alloc, problem, step)?;
    tell_outcome(alloc, &outcome, lines_of(step), out)?;
    let Outcome {
        verdict: _,
        spent: _,
        logs: _,
        closing: _,
        broken,
        journal,
    } = outcome;
    tell_broken(broken, out)?;
    let Some((journal, seats)) = journal else {
        return Err(Lacking::Evidence);
    };
    match journal.close(seats) {
        JournalClosing::Ended(disk) => played(tell_bytes(alloc, problem, disk.bytes(), out)),
        // A journal needs no memory to close.
        JournalClosing::Held(_, _) => unreachable!(),
    }
}

/// Has workers enumerate, with a journal on an empty disk.
fn journalled<R: Threads + Wait + Sync>(
    rt: &R,
    alloc: Global,
    problem: &Problem,
    step: &Step<'_>,
) -> Result<Outcome<MemDisk>, Lacking>
    ensures { IfOk result (λ out. IfSome out.journal (λ x. AreAll x.0 x.1.items)) }
{
    let _groups = problem.groups(); // The problem is well-formed.
    let map = map_of(alloc, problem, step)?;
    let oracles = oracles_of(alloc, problem, step)?;
    let journal = journal_of(alloc, problem, step, oracles.len() as u32)?;
    Ok(enumerate(
        rt,
        alloc,
        problem,
        Records::new(alloc),
        oracles,
        map,
        100,
        9,
        Goal::All,
        &OpenGate,
        Some(journal),
    ))
}

/// A journal of no records, with so many seats.
fn journal_of(
    alloc: Global,
    problem: &Problem,
    step: &Step<'_>,
    count: u32,
) -> Result<(Journal<MemDisk>, Vec<Seat<MemDisk>>), Lacking>
    requires { 0 < count }
    ensures problem { IfOk result (λ x. x.0.opening.problem ≡ problem.now) }
    ensures records { IfOk result (λ x. x.0.opening.records ≡ []) }
    ensures count { IfOk result (λ x. x.0.opening.seats ≡ count) }
    ensures seats { IfOk result (λ x. AreNew x.0 count x.1.items) }
{
    let numbers = numbers_of(alloc, step, 2)?;
    let failing = Calls::from_slice(alloc, numbers.as_slice())?;
    let mut disk = MemDisk::new(alloc, &[], failing, CALLS, BYTES)?;
    let JournalRead::Salvaged(salvaged) = salvage(alloc, problem, &mut disk) else {
        return Err(Lacking::Evidence);
    };
    if !salvaged.records.is_empty() {
        return Err(Lacking::Evidence);
    }
    match Journal::start(alloc, disk, problem, salvaged, count) {
        Started::Opened {
            journal,
            seats,
            records: _,
        } => Ok((journal, seats)),
        Started::Failed { disk: _ } => Err(Lacking::Evidence),
        Started::Memory { disk: _ } => Err(Lacking::Memory),
    }
}

fn tell_broken(broken: Option<u64>, out: &mut String) -> Result<(), AllocError> {
    match broken {
        Some(count) => {
            writeln!(out, "an append failed with {count}")?;
            Ok(())
        }
        None => say(out, "no append failed"),
    }
}

/// Adds the sets that a salvage of these bytes gives.
fn tell_bytes(
    alloc: Global,
    problem: &Problem,
    bytes: &[u8],
    out: &mut String,
) -> Result<(), AllocError> {
    let mut disk = MemDisk::new(alloc, bytes, Calls::new(alloc), CALLS, 0)?;
    match salvage(alloc, problem, &mut disk) {
        JournalRead::Salvaged(salvaged) => say_records(alloc, out, &salvaged.records),
        _ => say(out, "no journal"),
    }
}
