//! From a tally without entries to the sum of what all threads added.
ghost use Rattle.std.specs.Prelude.{◌<◌, ◌≤◌, IfOk, map};
ghost use Rattle.lock_tally.specs.Crews.{HasTurns, AreReplies, list_of};

use crate::crew::{hire, settle};
use crate::tally::Tally;
use crate::worker::{work_all, work_both};
use std::alloc::{AllocError, Global};
use std::sync::Wait;
use std::thread::Threads;

/// A tally that was closed, and what each seat was told, by number.
#[derive(Drop)]
pub struct Counted {
    pub tally: Tally,
    pub replies: Vec<Vec<u64>>,
}

/// Each of so many seats adds 1 so often, all at once. The history has exactly their turns.
pub fn count_together<R: Threads + Wait + Sync>(
    rt: &R,
    alloc: Global,
    seats: u32,
    turns: u32,
) -> Result<Counted, AllocError>
    requires seats { 0 < seats }
    requires turns { turns ≤ 100 }
    ensures turns { IfOk result (λ c. HasTurns seats turns c.tally.entries) }
    ensures replies { IfOk result (λ c. AreReplies seats c.tally.entries (map list_of c.replies.items)) }
{
    let (lock, mut workers) = hire(alloc, seats, turns)?;
    work_all(rt, &lock, workers.as_mut_slice(), turns);
    settle(alloc, lock, workers, seats, turns)
}

/// The same with two seats, whose workers are handed to two calls and come back.
pub fn count_by_two<R: Threads + Wait + Sync>(
    rt: &R,
    alloc: Global,
    turns: u32,
) -> Result<Counted, AllocError>
    requires { turns ≤ 100 }
    ensures turns { IfOk result (λ c. HasTurns 2 turns c.tally.entries) }
    ensures replies { IfOk result (λ c. AreReplies 2 c.tally.entries (map list_of c.replies.items)) }
{
    let (lock, mut workers) = hire(alloc, 2, turns)?;
    let second = workers.remove(1);
    let first = workers.remove(0);
    let (first, second) = work_both(rt, &lock, first, second, turns);
    workers.push_reserved(first);
    workers.push_reserved(second);
    settle(alloc, lock, workers, 2, turns)
}
