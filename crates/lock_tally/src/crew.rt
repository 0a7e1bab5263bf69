//! A crew: a lock round a tally, and a worker for each of its seats.
ghost use Rattle.std.specs.Prelude.{◌≡◌, ◌<◌, ◌≤◌, IfOk, map, All, length};
ghost use Rattle.lock_tally.specs.Crews.{seat_of, replies_of, list_of, IsReady, AreHired, AreDone, HasTurns, AreReplies};

use crate::count::Counted;
use crate::tally::{Tally, TallySeat};
use crate::worker::Worker;
use std::alloc::{AllocError, Global};
use turn_lock::{LockClosing, TurnLock};

/// A lock round a tally without entries, and a worker for each seat, with room for so many replies.
pub fn hire(
    alloc: Global,
    seats: u32,
    turns: u32,
) -> Result<(TurnLock<Tally>, Vec<Worker>), AllocError>
    requires { 0 < seats }
    ensures { IfOk result (λ r. AreHired r.0 seats turns r.1.items) }
{
    let tally = Tally::new(alloc, seats)?;
    let Ok((lock, list)) = TurnLock::start(alloc, tally, seats) else {
        return Err(AllocError);
    };
    let workers = seat_workers(alloc, list, turns)?;
    Ok((lock, workers))
}

/// Ends the lock when each worker made so many turns, and gives the tally with what each of them was told.
pub fn settle(
    alloc: Global,
    lock: TurnLock<Tally>,
    workers: Vec<Worker>,
    seats: u32,
    turns: u32,
) -> Result<Counted, AllocError>
    requires seats { 0 < seats }
    requires done { AreDone lock seats turns workers.items }
    ensures turns { IfOk result (λ c. HasTurns seats turns c.tally.entries) }
    ensures replies { IfOk result (λ c. AreReplies seats c.tally.entries (map list_of c.replies.items)) }
{
    let (list, replies) = dismiss(alloc, workers)?;
    match lock.close(list) {
        LockClosing::Closed(tally) => Ok(Counted { tally, replies }),
        // A lock needs no memory to close.
        LockClosing::Held(_, _) => unreachable!(),
    }
}

// A worker for each seat.
fn seat_workers(alloc: Global, seats: Vec<TallySeat>, turns: u32) -> Result<Vec<Worker>, AllocError>
    ensures seats { IfOk result (λ workers. map seat_of workers.items ≡ seats.items) }
    ensures ready { IfOk result (λ workers. All (IsReady turns) workers.items) }
{
    let mut workers = Vec::with_capacity(alloc, seats.len())?;
    for seat in seats {
        let replies = Vec::with_capacity(alloc, turns as usize)?;
        workers.push_reserved(Worker { seat, replies });
    }
    Ok(workers)
}

// The seats and the replies of all workers, in their order.
fn dismiss(
    alloc: Global,
    workers: Vec<Worker>,
) -> Result<(Vec<TallySeat>, Vec<Vec<u64>>), AllocError>
    ensures seats { IfOk result (λ r. r.0.items ≡ map seat_of workers.items) }
    ensures replies { IfOk result (λ r. map list_of r.1.items ≡ map replies_of workers.items) }
{
    let mut seats = Vec::with_capacity(alloc, workers.len())?;
    let mut replies = Vec::with_capacity(alloc, workers.len())?;
    for worker in workers {
        let Worker {
            seat,
            replies: told,
        } = worker;
        seats.push_reserved(seat);
        replies.push_reserved(told);
    }
    Ok((seats, replies))
}
