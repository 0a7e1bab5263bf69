//! The front of a disk, read in pieces.
ghost use Rattle.std.specs.Prelude.{◌≡◌, ◌<◌, ◌≤◌, IfOk, vec_len, length};
ghost use Rattle.disk_frames.specs.Reading.{AreFirst, Reaches, ReadingHasCause};
ghost use Rattle.gm_ports.specs.DiskState.{Looks};

use gm_ports::Disk;
use std::alloc::{AllocError, Global};

/// What came of reading on.
#[derive(Drop)]
pub(crate) enum Reading {
    Read,
    Failed,
    Memory,
}

/// How many bytes one read asks for at most.
pub(crate) const PIECE: usize = 65536;

/// Reads on, a piece at a time, until so many bytes stand in `bytes`, or all that the disk has.
pub(crate) fn read_up_to<D: Disk>(
    disk: &mut D,
    bytes: &mut Vec<u8>,
    piece: &mut [u8],
    wanted: usize,
) -> Reading
    requires some { 0 < length piece.old }
    requires first { AreFirst (D.state disk.old).reads bytes.old.items }
    ensures first { AreFirst (D.state disk.old).reads bytes.new.items }
    ensures reaches { Reaches (D.state disk.old).reads wanted (length bytes.new.items) result }
    ensures grows { length bytes.old.items ≤ length bytes.new.items }
    ensures looks { Looks (D.state disk.old) (D.state disk.new) }
    ensures cause { ReadingHasCause (D.state disk.old).faults (D.state disk.new).faults result }
{
    'turns: while bytes.len() < wanted {
        let Ok(count) = disk.read(bytes.len() as u64, piece) else {
            return Reading::Failed;
        };
        if count == 0 {
            return Reading::Read;
        }
        if bytes.extend_from_slice(&piece[..count]).is_err() {
            return Reading::Memory;
        }
    }
    Reading::Read
}

/// Room for one read. That its bytes are 0 is of no use to a proof.
pub(crate) fn blank_piece(alloc: Global) -> Result<Vec<u8>, AllocError>
    ensures { IfOk result (λ piece. vec_len piece ≡ PIECE) }
{
    vec![in alloc; 0u8; PIECE]
}
