//! Seats of one tally: what each is told, in threads and one after the other.
ghost use Rattle.std.specs.Prelude.{◌≤◌};
ghost use Rattle.lock_tally.specs.Works.{CanWork, HasWorked};

use lock_tally::{Counted, Tally, Worker, count_by_two, count_together, hire, settle, work};
use std::alloc::{AllocError, Global};
use std::process::Abort;
use std::sync::Wait;
use std::test::Fail;
use turn_lock::TurnLock;

// Fails unless the tally has so many entries, and the replies are the sums 1, 2, 3, .. up to their number, each once,
// and rise from turn to turn of each seat.
fn expect_each_sum_once(
    rt: &impl Abort,
    alloc: Global,
    counted: &Counted,
    want: u64,
) -> Result<(), Fail> {
    assert_eq!(rt; counted.tally.entries().len() as u64, want, "entries");
    assert_eq!(rt; counted.tally.sum(), want, "sum");
    let mut told = Vec::new(alloc);
    for replies in &counted.replies {
        let mut last = 0;
        for &reply in replies {
            assert!(rt; last < reply, "{reply} after {last}, {want} in all");
            last = reply;
            told.push(reply)?;
        }
    }
    told.sort()?;
    assert_eq!(rt; told.len() as u64, want, "replies");
    for (&reply, sum) in told.iter().zip(1..=want) {
        assert_eq!(rt; reply, sum, "of {want} replies");
    }
    Ok(())
}

#[test]
fn two_seats_in_a_join_are_told_each_sum_once(rt: HostRuntime) -> Result<(), Fail> {
    let counted = count_by_two(&rt, rt.alloc(), 100)?;
    expect_each_sum_once(&rt, rt.alloc(), &counted, 200)
}

#[test]
fn seats_in_threads_of_their_own_are_told_each_sum_once(rt: HostRuntime) -> Result<(), Fail> {
    for (seats, want) in [(1, 100), (2, 200), (7, 700)] {
        let counted = count_together(&rt, rt.alloc(), seats, 100)?;
        expect_each_sum_once(&rt, rt.alloc(), &counted, want)?;
    }
    Ok(())
}

// The one makes all its turns, and then the other.
fn work_in_turn<R: Wait>(
    rt: &R,
    lock: &TurnLock<Tally>,
    first: &mut Worker,
    second: &mut Worker,
    turns: u32,
    second_goes_first: bool,
)
    requires first { CanWork lock.now turns first.old }
    requires second { CanWork lock.now turns second.old }
    ensures first { HasWorked turns first.old first.new }
    ensures second { HasWorked turns second.old second.new }
{
    if second_goes_first {
        work(rt, lock, second, turns);
        work(rt, lock, first, turns);
    } else {
        work(rt, lock, first, turns);
        work(rt, lock, second, turns);
    }
}

fn count_in_turn<R: Wait>(
    rt: &R,
    alloc: Global,
    turns: u32,
    second_goes_first: bool,
) -> Result<Counted, AllocError>
    requires { turns ≤ 100 }
{
    let (lock, mut workers) = hire(alloc, 2, turns)?;
    let mut second = workers.remove(1);
    let mut first = workers.remove(0);
    work_in_turn(rt, &lock, &mut first, &mut second, turns, second_goes_first);
    workers.push_reserved(first);
    workers.push_reserved(second);
    settle(alloc, lock, workers, 2, turns)
}

#[test]
fn each_turn_is_told_the_sum_that_the_turns_before_it_left(rt: HostRuntime) -> Result<(), Fail> {
    // how many turns each seat makes, which of the two begins, and what each is told
    let rows: [(u32, bool, &[u64], &[u64]); 5] = [
        (0, false, &[], &[]),
        (1, false, &[1], &[2]),
        (1, true, &[2], &[1]),
        (3, false, &[1, 2, 3], &[4, 5, 6]),
        (3, true, &[4, 5, 6], &[1, 2, 3]),
    ];
    for (turns, swapped, first, second) in rows {
        if turns > 100 {
            return Err(Fail::from("too many turns"));
        }
        let counted = count_in_turn(&rt, rt.alloc(), turns, swapped)?;
        assert_eq!(rt; counted.replies.len(), 2, "{turns} {swapped}");
        assert_eq!(rt; counted.replies[0].as_slice(), first, "{turns} {swapped}");
        assert_eq!(rt; counted.replies[1].as_slice(), second, "{turns} {swapped}");
        assert_eq!(rt;
            counted.tally.sum(),
            2 * u64::from(turns),
            "{turns} {swapped}"
        );
    }
    Ok(())
}
