//! A journal of records on a disk.
//!
//! A journal keeps the records of a run, each as a text of its own in a frame of `disk_frames`, so that a crash at any
//! moment leaves all that were acknowledged. [`salvage`] reads the records back, and checks each of them as evidence from
//! anywhere else is checked: whatever the disk holds, each record that is salvaged is accepted for the problem, and no set
//! of a kind comes twice.
//!
//! ```text
//! match salvage(alloc, &problem, &mut disk) {
//!     JournalRead::Salvaged(salvaged) => ..,     // salvaged.records, and where the journal ends
//!     JournalRead::Foreign { at } => ..,         // from the open gate at this byte on, it is no journal of the problem
//!     JournalRead::Failed => ..,
//!     JournalRead::Memory => ..,
//! }
//! ```
//!
//! A [`Journal`] goes on from there. Its seats may be in different threads, and each append is one turn of a lock:
//!
//! ```text
//! let Started::Opened { journal, mut seats, records } = Journal::start(alloc, disk, &problem, salvaged, 2) else { .. };
//! match journal.append(rt, &mut seats[0], RecordText::new(alloc, &problem, &record)?) {
//!     Appended::Ok => ..,               // each crash from now on leaves the record
//!     Appended::Already => ..,          // one of its kind and set is there
//!     Appended::Failed(count) => ..,    // the disk failed, and the journal is closed
//!     Appended::Closed | Appended::Memory => ..,
//! }
//! let JournalClosing::Ended(disk) = journal.close(seats) else { unreachable!() };
//! ```
//!
//! Start reading at `specs/Following.antt`, which says which record may stand behind which, and go on with
//! `specs/Salvage.antt`; then `specs/Histories.antt`, which says what each answer means, `specs/Books.antt`, which says what a
//! crash leaves, and `specs/Journals.antt`. The text of a record is for `evidence_text`, and what a crash leaves of a disk for
//! `disk_frames`.
//!
//! Nothing is promised of waiting, nor of the order in which seats come to their turns.
#![tactic(auto)]

mod answering;
mod book;
mod crossing;
mod entry;
mod journal;
mod judging;
pub mod laws;
mod salvaging;

pub use book::JournalBook;
pub use entry::{Appended, Entry, Opening};
pub use journal::{BookLock, Journal, JournalClosing, Seat, Started};
pub use salvaging::{JournalRead, Salvaged, salvage};
