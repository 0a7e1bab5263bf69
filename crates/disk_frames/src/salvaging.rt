//! Reading a journal that a crash may have left.
ghost use Rattle.std.specs.Prelude.{◌≡◌, IfSome};
ghost use Rattle.disk_frames.specs.Salvage.{Says, IsJudged, EndsWithin, SalvageHasCause};
ghost use Rattle.gm_ports.specs.DiskState.{Looks};

use crate::Judge;
use crate::finding::{Found, HEAD, find};
use crate::reading::blank_piece;
use gm_ports::Disk;
use std::alloc::{AllocError, Global};

/// Where a journal ends, and the byte there, which is none only on an empty disk.
#[derive(Clone, Copy, Debug, Drop, PartialEq, Eq)]
pub struct End {
    pub gate: u64,
    pub last: Option<u8>,
}

/// What a salvage gives.
#[derive(Debug, Drop)]
pub enum Salvaged {
    Ended(End),
    /// The disk holds something else, from the open gate at this place on.
    Foreign(u64),
    Failed,
    Memory,
}

/// Reads the texts of a journal from an opened disk up to its ending gate, and hands each to the judge.
///
/// It takes memory for the bytes that it reads: those up to the ending gate, and at most 64 KiB more.
pub fn salvage<D: Disk, J: Judge>(alloc: Global, disk: &mut D, judge: &mut J) -> Salvaged
    ensures told { IfSome (D.state disk.old).reads (λ bytes. Says (J.fits (J.rule judge.old)) (J.kept judge.old) bytes (J.kept judge.new) result) }
    ensures judged { IsJudged (J.fits (J.rule judge.old)) (J.kept judge.old) (J.kept judge.new) result }
    ensures rule { J.rule judge.new ≡ J.rule judge.old }
    ensures within { EndsWithin result }
    ensures looks { Looks (D.state disk.old) (D.state disk.new) }
    ensures cause { SalvageHasCause (D.state disk.old).faults (D.state disk.new).faults result }
{
    let Ok(mut piece) = blank_piece(alloc) else {
        return Salvaged::Memory;
    };
    let Ok(disk_len) = disk.len() else {
        return Salvaged::Failed;
    };
    let mut bytes = Vec::new(alloc);
    let mut at = 0;
    'frames: loop {
        let size = match find(disk, &mut bytes, &mut piece[..], at, disk_len) {
            Found::Text(size) => size,
            Found::Closed(last) => {
                return Salvaged::Ended(End {
                    gate: at as u64,
                    last,
                });
            }
            Found::Nothing => return Salvaged::Foreign(at as u64),
            Found::Failed => return Salvaged::Failed,
            Found::Memory => return Salvaged::Memory,
        };
        let end = at + HEAD + size;
        match judge.take(&bytes[at + HEAD..end]) {
            Ok(true) => at = end,
            Ok(false) => return Salvaged::Foreign(at as u64),
            Err(AllocError) => return Salvaged::Memory,
        }
    }
}
