//! A journal that threads share.
//!
//! It stands behind a lock of its own, so whoever waits for a disk's sync keeps nobody from another lock.
ghost use Rattle.std.specs.Prelude.{◌≡◌, ◌+◌, ◌^◌, ◌<◌, [], ℕ, List, IfOk, IfSome};
ghost use Rattle.turn_lock.specs.Seats.{AreAll};
ghost use Rattle.evidence_rec.specs.Index.{IsIndex};
ghost use Rattle.gm_journal.specs.Salvage.{HoldsRecords};
ghost use Rattle.gm_journal.specs.Journals.{MayCall, IsAppend, IsShared, TellsStarted, TellsClosing};

use crate::book::{JournalBook, Unopened};
use crate::entry::{Appended, Entry, Opening};
use crate::salvaging::Salvaged;
use disk_frames::End;
use evidence_rec::{Held, Record, Records};
use evidence_text::{RecordText, problem_fits};
use gm_base::Problem;
use gm_ports::Disk;
use std::alloc::{AllocError, Global};
use std::marker::Model;
use std::snapshot::Snapshot;
use std::sync::Wait;
use turn_lock::{Book, LockClosing, NoRoom, TurnLock};

/// The right to append, one record after the other.
pub type Seat<D> = turn_lock::Seat<Entry<D>, Opening<D>>;

/// A book behind a lock of its own, whatever the book is: so it is seen that threads may share it.
#[derive(Drop)]
pub struct BookLock<B: Book> {
    lock: TurnLock<B>,
}

impl<B: Book> Model for BookLock<B> {
    ghost use Rattle.turn_lock.specs.Seats.{LockView};

    ghost Value = { LockView B.Opening };

    ghost view = { λ j. j.lock };
}

/// A journal on a disk, one append at a time.
pub type Journal<D> = BookLock<JournalBook<D>>;

/// What came of starting a journal.
#[derive(Drop)]
pub enum Started<D: Disk> {
    /// The journal, its seats, numbered from 0 in the order of the list, and the records that were salvaged.
    Opened {
        journal: Journal<D>,
        seats: Vec<Seat<D>>,
        records: Records,
    },
    /// The disk failed.
    Failed {
        disk: D,
    },
    /// There was no memory.
    Memory {
        disk: D,
    },
}

/// How a journal ends.
#[derive(Drop)]
pub enum JournalClosing<D: Disk> {
    Ended(D),
    /// There was no memory for it: the journal goes on, with all its seats. `close` needs none, so this is never answered.
    Held(Journal<D>, Vec<Seat<D>>),
}

impl<D: Disk + Drop> Journal<D> {
    /// A journal that goes on behind what a salvage gave of this disk, as it reads, for this problem. It reads nothing.
    ///
    /// It syncs first, so that nothing is pending. On an empty disk it then writes a closed gate and syncs.
    pub fn start(
        alloc: Global,
        mut disk: D,
        problem: &Problem,
        salvaged: Salvaged,
        seats: u32,
    ) -> Started<D>
        requires seats { 0 < seats }
        requires gate { salvaged.gate + 1 < 2 ^ 64 }
        requires read { IfSome (D.state disk).reads (λ bytes. HoldsRecords problem.now bytes salvaged.records salvaged.gate salvaged.last) }
        ensures { TellsStarted D.state disk problem.now salvaged seats result }
    {
        problem_fits(problem);
        let Salvaged {
            records,
            gate,
            last,
        } = salvaged;
        let Ok(held) = sets_of(alloc, records.as_slice()) else {
            return Started::Memory { disk };
        };
        if disk_frames::start(&mut disk, End { gate, last }).is_err() {
            return Started::Failed { disk };
        }
        let ready = Snapshot::of(&disk);
        let opening = Opening {
            problem: Snapshot::of(problem),
            records: Snapshot::of(&records),
            seats,
            disk: ready,
        };
        match JournalBook::open(alloc, disk, held, gate, seats, opening) {
            Ok(book) => share(alloc, book, seats, records),
            Err(Unopened { disk }) => Started::Memory { disk },
        }
    }
}

impl<D: Disk> Journal<D> {
    /// Puts the record behind those that the journal has, and answers when it is on the disk. It may wait for other seats'
    /// turns.
    pub fn append<R: Wait>(&self, rt: &R, seat: &mut Seat<D>, text: RecordText) -> Appended
        requires { MayCall self.now seat.old text }
        ensures { IsAppend self.now.opening seat.old text result seat.new }
    {
        self.lock.turn(rt, seat, text)
    }

    /// Ends the journal and gives its disk. It takes all seats that `start` gave, in their order, and no memory.
    pub fn close(self, seats: Vec<Seat<D>>) -> JournalClosing<D>
        requires { AreAll self seats.items }
        ensures { TellsClosing D.state self.opening seats.items result }
    {
        let BookLock { lock } = self;
        match lock.close(seats) {
            LockClosing::Closed(book) => JournalClosing::Ended(book.into_disk()),
            LockClosing::Held(lock, seats) => JournalClosing::Held(BookLock { lock }, seats),
        }
    }
}

// Puts the book behind a lock.
fn share<D: Disk + Drop>(
    alloc: Global,
    book: JournalBook<D>,
    seats: u32,
    records: Records,
) -> Started<D>
    requires seats { 0 < seats }
    requires empty { book.history ≡ [] }
    ensures { IsShared book seats records result }
{
    match TurnLock::start(alloc, book, seats) {
        Ok((lock, seats)) => Started::Opened {
            journal: BookLock { lock },
            seats,
            records,
        },
        Err(NoRoom { book }) => Started::Memory {
            disk: book.into_disk(),
        },
    }
}

// The sets of these records.
fn sets_of(alloc: Global, records: &[Record]) -> Result<Held, AllocError>
    ensures { IfOk result (λ held. IsIndex held records.now) }
{
    let mut held = Held::new(alloc);
    for r in records {
        held.add(r.kind(), r.set().copy(alloc)?)?;
    }
    Ok(held)
}
