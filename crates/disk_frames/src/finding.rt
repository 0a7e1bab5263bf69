//! What stands at a gate.
ghost use Rattle.std.specs.Prelude.{◌≡◌, ◌<◌, ◌≤◌, ℕ, IfSome, IfNone, length, take, slice_index};
ghost use Rattle.disk_frames.specs.Frames.{length_bytes};
ghost use Rattle.disk_frames.specs.Reading.{AreFirst, Finds, FindsWithin, FoundHasCause};
ghost use Rattle.gm_ports.specs.DiskState.{Looks};

use crate::reading::{Reading, read_up_to};
use gm_ports::Disk;

/// What stands at a gate.
#[derive(Drop)]
pub(crate) enum Found {
    /// An open gate, then the length, and then so many bytes and a next gate.
    Text(usize),
    /// A closed gate, or the end of the disk.
    Closed(Option<u8>),
    /// An open gate, and no frame with a next gate.
    Nothing,
    Failed,
    Memory,
}

/// How many bytes a gate and a length take.
pub(crate) const HEAD: usize = 9;

/// Finds what stands at a gate of a disk of so many bytes, and reads it to the end of its frame.
pub(crate) fn find<D: Disk>(
    disk: &mut D,
    bytes: &mut Vec<u8>,
    piece: &mut [u8],
    at: usize,
    disk_len: u64,
) -> Found
    requires some { 0 < length piece.old }
    requires inside { at ≤ length bytes.old.items }
    requires first { AreFirst (D.state disk.old).reads bytes.old.items }
    requires sized { IfSome (D.state disk.old).reads (λ text. disk_len ≡ length text) }
    ensures first { AreFirst (D.state disk.old).reads bytes.new.items }
    ensures inside { at ≤ length bytes.new.items }
    ensures found { Finds (D.state disk.old).reads at bytes.new.items result }
    ensures within { FindsWithin at bytes.new.items result }
    ensures looks { Looks (D.state disk.old) (D.state disk.new) }
    ensures cause { FoundHasCause (D.state disk.old).faults (D.state disk.new).faults result }
{
    match read_up_to(disk, bytes, piece, at + HEAD) {
        Reading::Read => {}
        Reading::Failed => return Found::Failed,
        Reading::Memory => return Found::Memory,
    }
    let Some(gate) = bytes.get(at) else {
        return Found::Closed(None);
    };
    if *gate != 1 {
        return Found::Closed(Some(*gate));
    }
    let Some(size) = first_length(&bytes[at + 1..]) else {
        return Found::Nothing;
    };
    let left = disk_len.saturating_sub((at + HEAD) as u64);
    if size >= left {
        return Found::Nothing;
    }
    let end = at + HEAD + size as usize;
    match read_up_to(disk, bytes, piece, end + 1) {
        Reading::Read => {}
        Reading::Failed => return Found::Failed,
        Reading::Memory => return Found::Memory,
    }
    if bytes.len() <= end {
        return Found::Nothing;
    }
    Found::Text(size as usize)
}

/// The length that the first 8 bytes say.
fn first_length(bytes: &[u8]) -> Option<u64>
    ensures some { IfSome result (λ size. length_bytes size ≡ take 8 bytes.now) }
    ensures long { IfSome result (λ size. 8 ≤ length bytes.now) }
    ensures none { IfNone result (length bytes.now < 8) }
{
    let [a, b, c, d, e, f, g, h, ..] = bytes else {
        return None;
    };
    Some(length_of([*a, *b, *c, *d, *e, *f, *g, *h]))
}

fn length_of(bytes: [u8; 8]) -> u64
    requires eight { length bytes ≡ 8 }
    requires bytes { (i : ℕ) → slice_index bytes i < 256 }
    ensures { length_bytes result ≡ bytes }
{
    u64::from_be_bytes(bytes)
}
