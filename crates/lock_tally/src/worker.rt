//! Workers: each has a seat of its own, makes turns with it and keeps the replies.
ghost use Rattle.std.specs.Prelude.{◌≡◌, ◌<◌, ℕ, length, slice_index_or, All};
ghost use Rattle.turn_lock.specs.Seats.{IsSameSeat};
ghost use Rattle.lock_tally.specs.Works.{CanAdd, HasAdded, CanWork, HasWorked};

use crate::tally::{Tally, TallySeat};
use std::sync::Wait;
use std::thread::{self, Threads};
use turn_lock::TurnLock;

/// A seat, and the replies to its turns, in their order.
#[derive(Drop)]
pub struct Worker {
    pub seat: TallySeat,
    pub replies: Vec<u64>,
}

/// Adds an amount in one turn, and answers the sum then.
pub fn add<R: Wait>(rt: &R, lock: &TurnLock<Tally>, seat: &mut TallySeat, amount: u16) -> u64
    requires { CanAdd lock.now 1 seat.old }
    ensures { HasAdded amount result seat.old seat.new }
{
    lock.turn(rt, seat, amount)
}

/// Adds 1 in each of so many turns.
pub fn work<R: Wait>(rt: &R, lock: &TurnLock<Tally>, worker: &mut Worker, turns: u32)
    requires { CanWork lock.now turns worker.old }
    ensures { HasWorked turns worker.old worker.new }
{
    for done in 0..turns {
        let reply = add(rt, lock, &mut worker.seat, 1);
        worker.replies.push_reserved(reply);
    }
}

/// All workers, in up to 64 threads. Where no thread can be had they work one after the other.
pub fn work_all<R: Threads + Wait + Sync>(
    rt: &R,
    lock: &TurnLock<Tally>,
    workers: &mut [Worker],
    turns: u32,
)
    requires { All (CanWork lock.now turns) workers.old }
    ensures same { length workers.new ≡ length workers.old }
    ensures each { (i : ℕ) (d : _) → i < length workers.old → HasWorked turns (slice_index_or workers.old i d) (slice_index_or workers.new i d) }
{
    thread::for_each_mut(
        rt,
        workers,
        64,
        &|_: usize, worker: &mut Worker|
            requires { CanWork lock.now turns worker.old }
            ensures { HasWorked turns worker.old worker.new }
        { work(rt, lock, worker, turns) },
    );
}

/// Two workers at once. Each goes into its call and comes back.
pub fn work_both<R: Threads + Wait + Sync>(
    rt: &R,
    lock: &TurnLock<Tally>,
    first: Worker,
    second: Worker,
    turns: u32,
) -> (Worker, Worker)
    requires first { CanWork lock.now turns first }
    requires second { CanWork lock.now turns second }
    ensures first { HasWorked turns first result.0 }
    ensures second { HasWorked turns second result.1 }
{
    thread::join(
        rt,
        || worked(rt, lock, first, turns),
        || worked(rt, lock, second, turns),
    )
}

fn worked<R: Wait>(rt: &R, lock: &TurnLock<Tally>, mut worker: Worker, turns: u32) -> Worker
    requires { CanWork lock.now turns worker }
    ensures { HasWorked turns worker result }
{
    work(rt, lock, &mut worker, turns);
    worker
}
