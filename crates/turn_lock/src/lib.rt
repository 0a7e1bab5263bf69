//! A ticket lock round a book of calls.
//!
//! A [`TurnLock`] holds one value, the book, and gives a fixed number of seats. Whoever has a seat makes turns with it:
//! [`TurnLock::turn`] applies one operation to the book and answers its reply. Seats may be in different threads, and
//! any number of them may be in a turn at once. What is proved is that the turns come out as if one thread had made
//! them, one after the other: there is one list of entries, the history, each turn appended exactly one entry to it,
//! and the reply of each turn is the one that a book with the entries before it gives. A seat knows the history as far
//! as it has seen it, which is up to its own last entry, and [`TurnLock::close`] gives the book whose history has the
//! calls of all seats and no others.
//!
//! ```rust
//! let (lock, mut seats) = TurnLock::start(alloc, tally, 2)?;
//! let sum = lock.turn(rt, &mut seats[0], 5);          // in any thread; it may wait
//! let LockClosing::Closed(tally) = lock.close(seats) else { unreachable!() };
//! ```
//!
//! # How it works
//!
//! It is the ticket lock of Mellor-Crummey and Scott (Algorithms for scalable synchronization on shared-memory
//! multiprocessors, 1991). Two words and one slot are shared by all seats:
//!
//! | Shared | What it means |
//! |---|---|
//! | the word `ticket` | the next ticket to be drawn: how many turns were begun |
//! | the word `serving` | the ticket whose turn it is: how many turns were ended |
//! | the slot | the book, while no seat has it out |
//!
//! There are eight kinds of step. The first five make a turn, in this order:
//!
//! | Step | What it does | Where |
//! |---|---|---|
//! | draw | adds one to `ticket`; the number that was there is the seat's ticket | `turn` |
//! | look | reads `serving`; where that is the seat's ticket the slot is lent to it, else it looks again | `turn` |
//! | take out | reads the slot that was lent, and leaves it empty | `turn` |
//! | put back | writes the book, with one entry more, into that slot | `turn` |
//! | pass | stores `serving` plus one, and with it the slot is given back | `turn` |
//! | split | makes a new seat of the first one | `start` |
//! | join | makes one seat of two | `close` |
//! | close | ends the table, when one seat is left | `close` |
//!
//! **The atomic step of a turn is its pass.** What a seat does between its look and its pass no other seat can see:
//! the slot is lent to it alone, so taking out and putting back are a plain read and a plain write. At the pass the
//! new entry becomes part of the history, for all seats at once. Draw and look change nothing but what the acting seat
//! knows. Each step is sequentially consistent.
//!
//! Why it suffices: tickets are drawn one by one, so no two seats have the same one, and `serving` is one of them at a
//! time. So at most one seat holds the book, and only while the slot is empty. `specs/Rule.antt` says this as one
//! rule over the words, the slot and the views of all seats; each kind of step keeps it, and everything that is said
//! of a turn is read off it.
//!
//! # Where to start
//!
//! `src/book.rt` says what a book is, `specs/Seats.antt` what callers see of a lock and a seat, and `src/lock.rt` and
//! `src/turn.rt` have the three calls.
//!
//! # What is not promised
//!
//! - That a turn returns. A seat that waits looks again and again, and nothing is parked. No clause speaks of progress,
//!   of fairness, of deadlock, or of how long a wait is. Tickets are served in the order in which they were drawn, but
//!   no clause says so.
//! - An order in time between seats that never met: who drew first is not told, only the order of the entries.
//! - That a seat which is dropped is made up for. Its entries stay in the history, but the lock can't be closed without
//!   it.
#![tactic(auto)]

mod book;
mod lock;
mod moves;
mod seat;
mod turn;
mod view;

pub use book::Book;
pub use lock::{LockClosing, NoRoom, TurnLock};
pub use seat::Seat;
