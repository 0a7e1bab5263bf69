//! Reading the records of a journal that a crash may have left.
ghost use Rattle.std.specs.Prelude.{IfSome};
ghost use Rattle.gm_ports.specs.DiskState.{Looks};
ghost use Rattle.gm_journal.specs.Salvage.{Says, SaysOfRecords, AreAccepted, EndsWithin, ReadHasCause};

use crate::judging::RecordJudge;
use disk_frames::End;
use evidence_rec::Records;
use gm_base::Problem;
use gm_ports::Disk;
use std::alloc::{AllocError, Global};

/// The records of a journal, in their order, and where it ends.
#[derive(Drop)]
pub struct Salvaged {
    pub records: Records,
    /// The place of the ending gate, in bytes from 0.
    pub gate: u64,
    /// The byte there, which is none only on an empty disk.
    pub last: Option<u8>,
}

/// What came of reading a journal.
#[derive(Drop)]
pub enum JournalRead {
    Salvaged(Salvaged),
    /// The disk holds something else, from the open gate at this place on: no whole frame with a next gate, or one whose text
    /// is not that of a record, or of one that is not accepted, or of one whose set of that kind stood before.
    Foreign { at: u64 },
    /// The disk failed.
    Failed,
    /// There was no memory.
    Memory,
}

/// Reads the records of a journal about the problem from an opened disk, and checks each of them.
pub fn salvage<D: Disk>(alloc: Global, problem: &Problem, disk: &mut D) -> JournalRead
    ensures told { IfSome (D.state disk.old).reads (λ bytes. Says problem.now bytes result) }
    ensures records { SaysOfRecords problem.now result }
    ensures accepted { AreAccepted problem.now result }
    ensures within { EndsWithin result }
    ensures looks { Looks (D.state disk.old) (D.state disk.new) }
    ensures cause { ReadHasCause (D.state disk.old).faults (D.state disk.new).faults result }
{
    let Ok(mut judge) = RecordJudge::new(alloc, problem) else {
        return JournalRead::Memory;
    };
    match disk_frames::salvage(alloc, disk, &mut judge) {
        disk_frames::Salvaged::Ended(End { gate, last }) => JournalRead::Salvaged(Salvaged {
            records: judge.into_records(),
            gate,
            last,
        }),
        disk_frames::Salvaged::Foreign(at) => JournalRead::Foreign { at },
        disk_frames::Salvaged::Failed => JournalRead::Failed,
        disk_frames::Salvaged::Memory => JournalRead::Memory,
    }
}
