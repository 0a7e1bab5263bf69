//! The crew: all workers, from the oracles and the seats, to the seats and the logs.
ghost use Rattle.std.specs.Prelude.{◌≡◌, ◌⊎◌, ◌+◌, ◌<◌, ◌≤◌, ◌++◌, ◌∷◌, [], ℕ, List, map, All, Some, None, IfOk, IfErr, IfNone, IfSome, length, slice_index_or, vec_capacity, vec_len, option_copied};
ghost use denote.Param.Send.{IsSync};
ghost use Rattle.evidence_rec.specs.Asking.{IsHonestOver};
ghost use Rattle.map_core.specs.Sound.{IsOpening};
ghost use Rattle.worker_pool.specs.Pens.{one_each, all_some, first_some};
ghost use Rattle.worker_pool.specs.Workers.{IsNew, HasNewPen, HasWorked, oracle_of, seat_of, pen_of, broken_of, log_of};

use crate::marco::work_beside;
use crate::pace::Pace;
use crate::signs::Signs;
use crate::worker::Worker;
use board::{Board, Seat};
use evidence_rec::{MapEngine, Oracle};
use gm_base::Problem;
use gm_journal::Journal;
use gm_ports::{Disk, Gate};
use lrat_steps::Log;
use map_core::Goal;
use std::alloc::{AllocError, Global};
use std::sync::Wait;
use std::thread::{self, Threads};

/// A worker for each oracle, with the seat at its place, and the pen, while there are any. The lists of seats and of pens
/// keep their room.
pub fn hire<O: Oracle + Drop, D: Disk>(
    alloc: Global,
    oracles: Vec<O>,
    seats: &mut Vec<Seat>,
    pens: &mut Vec<gm_journal::Seat<D>>,
) -> Result<Vec<Worker<O, D>>, AllocError>
    requires seats { length seats.old.items ≡ length oracles.items }
    requires pens { length pens.old.items ≤ length oracles.items }
    ensures oracles { IfOk result (λ workers. map oracle_of workers.items ≡ oracles.items) }
    ensures seats { IfOk result (λ workers. map seat_of workers.items ≡ seats.old.items) }
    ensures pens { IfOk result (λ workers. map pen_of workers.items ≡ one_each (length oracles.items) pens.old.items) }
    ensures whole { IfOk result (λ workers. All (λ w. w.broken ≡ None) workers.items) }
    ensures empty { IfOk result (λ _. (seats.new.items ≡ []) × (pens.new.items ≡ [])) }
    ensures room { (vec_capacity seats.new ≡ vec_capacity seats.old) × (vec_capacity pens.new ≡ vec_capacity pens.old) }
    ensures untouched { IfErr result (λ _. pens.new ≡ pens.old) }
{
    let mut workers = Vec::with_capacity(alloc, oracles.len())?;
    for oracle in oracles {
        let seat = seats.remove(0);
        let pen = first_of(pens);
        workers.push_reserved(Worker {
            oracle,
            seat,
            pen,
            broken: None,
        });
    }
    Ok(workers)
}

// The first of a list, which leaves it.
fn first_of<D: Disk>(pens: &mut Vec<gm_journal::Seat<D>>) -> Option<gm_journal::Seat<D>>
    ensures some { IfSome result (λ pen. pens.old.items ≡ pen ∷ pens.new.items) }
    ensures none { IfNone result ((pens.old.items ≡ []) × (pens.new.items ≡ [])) }
    ensures room { vec_capacity pens.new ≡ vec_capacity pens.old }
{
    if pens.is_empty() {
        None
    } else {
        Some(pens.remove(0))
    }
}

// So many workers have a thread each, also where there are fewer processors.
const FEW: usize = 2;

// So many processors are taken where the system does not tell.
const MANY: usize = 64;

// In how many threads so many workers are at work: in as many as there are processors, or somewhat more, so that one has
// about as many workers as another.
fn threads_for<R: Threads>(rt: &R, workers: usize) -> usize
    ensures { 0 < result }
{
    let processors = match thread::available_parallelism(rt) {
        Ok(count) => count.get().max(FEW),
        Err(_) => MANY,
    };
    let each = (workers / processors).max(1);
    workers.div_ceil(each).max(1)
}

// The first of those that work in the caller's thread, which are the last ones: that thread has the allocator's main arena
// (see docs/DECISIONS.md).
fn leader_of(workers: usize, threads: usize) -> usize
    requires { 0 < threads }
{
    let each = workers.div_ceil(threads).max(1);
    let last = workers.saturating_sub(1);
    last - last % each
}

/// All workers at once, in threads. Where there are more workers than processors, a thread has several, which work one
/// after the other: a seat that waits takes from those that work. Where no thread can be had, all workers do so.
pub fn work_all<
    O: Oracle + Send,
    M: MapEngine + Send,
    G: Gate,
    D: Disk + Send,
    R: Threads + Wait + Sync,
>(
    rt: &R,
    alloc: Global,
    board: &Board<M>,
    problem: &Problem,
    goal: Goal,
    workers: &mut [Worker<O, D>],
    gate: &G,
    journal: Option<&Journal<D>>,
)
    requires board { board.now.opening.problem ≡ problem.now }
    requires opening { IsOpening board.now.opening }
    requires new { All (λ w. IsNew board.now problem.now (O.state w.oracle) w.seat) workers.old }
    requires pens { All (λ w. HasNewPen (option_copied journal) problem.now w) workers.old }
    ensures same { length workers.new ≡ length workers.old }
    ensures each { (i : ℕ) (d : _) → i < length workers.old → HasWorked (option_copied journal.entry) board.now problem.now O.state (slice_index_or workers.old i d) (slice_index_or workers.new i d) }
{
    let threads = threads_for(rt, workers.len());
    let leader = leader_of(workers.len(), threads);
    let signs = Signs::new();
    is_shared(Some(board));
    is_shared(journal);
    thread::for_each_mut(
        rt,
        workers,
        threads,
        &|place: usize, worker: &mut Worker<O, D>|
            requires { (board.now.opening.problem ≡ problem.now) × IsOpening board.now.opening × IsNew board.now problem.now (O.state worker.old.oracle) worker.old.seat × HasNewPen (option_copied journal) problem.now worker.old }
            ensures { HasWorked (option_copied journal.entry) board.entry.now problem.entry.now O.state worker.old worker.new }
        {
            let pace = Pace::new(place == leader, problem.len());
            work_beside(
                rt, alloc, board, problem, goal, worker, gate, journal, pace, &signs,
            )
        },
    );
}

// That threads may share it, which is proved where this is called.
fn is_shared<T: Sync>(_value: Option<&T>)
    ensures { IsSync T.row }
{}

/// The seats of all workers go back to their list, so do their pens, and the logs of their oracles go to theirs. It gives the
/// count with which an append failed, if one did.
pub fn dismiss<O: Oracle + Drop, D: Disk>(
    problem: &Problem,
    workers: Vec<Worker<O, D>>,
    seats: &mut Vec<Seat>,
    pens: &mut Vec<gm_journal::Seat<D>>,
    logs: &mut Vec<Log>,
) -> Option<u64>
    requires problem { All (λ w. (O.state w.oracle).problem ≡ problem.now) workers.items }
    requires empty { (seats.old.items ≡ []) × (pens.old.items ≡ []) × (logs.old.items ≡ []) }
    requires room { (length workers.items ≤ vec_capacity seats.old) × (length workers.items ≤ vec_capacity logs.old) }
    requires pens { length (all_some (map pen_of workers.items)) ≤ vec_capacity pens.old }
    ensures seats { seats.new.items ≡ map seat_of workers.items }
    ensures pens { pens.new.items ≡ all_some (map pen_of workers.items) }
    ensures logs { logs.new.items ≡ map (log_of O.state) workers.items }
    ensures honest { All (IsHonestOver problem.now) logs.new.items }
    ensures broken { result ≡ first_some (map broken_of workers.items) }
    ensures room { vec_capacity logs.new ≡ vec_capacity logs.old }
{
    let mut first = None;
    for worker in workers {
        let Worker {
            oracle,
            seat,
            pen,
            broken,
        } = worker;
        seats.push_reserved(seat);
        put_back(pen, pens);
        logs.push_reserved(oracle.into_log());
        first = either(first, broken);
    }
    first
}

// The first count, where there is one, or else the other.
fn either(first: Option<u64>, other: Option<u64>) -> Option<u64>
    ensures { result ≡ first_some (first ∷ other ∷ []) }
{
    match first {
        Some(count) => Some(count),
        None => other,
    }
}

// A pen goes to the end of its list, where there is one.
fn put_back<D: Disk>(pen: Option<gm_journal::Seat<D>>, pens: &mut Vec<gm_journal::Seat<D>>)
    requires { length pens.old.items + length (all_some (pen ∷ [])) ≤ vec_capacity pens.old }
    ensures items { pens.new.items ≡ pens.old.items ++ all_some (pen ∷ []) }
    ensures room { vec_capacity pens.new ≡ vec_capacity pens.old }
{
    if let Some(pen) = pen {
        pens.push_reserved(pen);
    }
}
