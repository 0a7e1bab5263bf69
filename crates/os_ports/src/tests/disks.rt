//! Calls of a file as a disk in a row, and what they answered.
use crate::disk::RealDisk;
use gm_ports::Disk;
use os_files::Names;
use std::fs;

// The text that is written at the front, as a journal begins, and what is written over its end.
const FRONT: &[u8] = b"\x01123456789";

const BEHIND: &[u8] = b"abcdef";

/// What the calls answered.
#[derive(Clone, Copy)]
pub(super) struct ToldOfDisk {
    /// Which calls worked where nothing is opened: asking how long it is, reading, writing, and a sync.
    pub(super) unopened: [bool; 4],
    /// Which names open: the empty one, a folder, one in a folder that is not there, and that of the file.
    pub(super) opened: [bool; 4],
    /// How long the file is: before anything is written, behind the writing, and when it is opened once more.
    pub(super) sizes: [u64; 3],
    /// Which calls worked: writing at the front, over its end, and past the greatest place, and a sync.
    pub(super) written: [bool; 4],
    /// How many bytes are read in the middle, at the end and past it.
    pub(super) read: [usize; 3],
    /// Whether those in the middle are what was written there.
    pub(super) is_same: bool,
    /// Whether the file could be removed.
    pub(super) removed: bool,
    /// Which names open that are no journal: of a file while another disk has it open, of a text, and of a device.
    pub(super) refused: [bool; 3],
    /// The counts of faults: where nothing was opened, behind the opening, behind the file's calls, and at the end.
    pub(super) faults: [u64; 4],
}

/// Tries a file of this name as a disk. It has no branch: what was answered is looked at afterwards.
pub(super) fn try_disk(rt: &HostRuntime, name: &str, lost: &str) -> ToldOfDisk {
    let mut disk = RealDisk::new(rt, rt.alloc(), Names::none());
    let unopened = try_unopened(&mut disk);
    let behind_unopened = disk.faults();
    let opened = [
        disk.open_disk("").is_ok(),
        disk.open_disk("/tmp").is_ok(),
        disk.open_disk(lost).is_ok(),
        disk.open_disk(name).is_ok(),
    ];
    let behind_opening = disk.faults();
    let before = disk.len().unwrap_or(99);
    let written = write_pieces(&mut disk);
    let behind = disk.len().unwrap_or(99);
    let mut middle = [0; 8];
    let count = disk.read(6, &mut middle).unwrap_or(99);
    let is_same = middle == *b"6789abcd";
    let at_end = disk.read(16, &mut middle).unwrap_or(99);
    let past_end = disk.read(1000, &mut middle).unwrap_or(99);
    let again = reopen(&mut disk, name);
    let behind_file = disk.faults();
    let refused = [
        open_twice(rt, name),
        open_text(&mut disk, name),
        disk.open_disk("/dev/full").is_ok(),
    ];
    let removed = fs::remove_file(rt, name).is_ok();
    ToldOfDisk {
        unopened,
        opened,
        sizes: [before, behind, again],
        written,
        read: [count, at_end, past_end],
        is_same,
        removed,
        refused,
        faults: [behind_unopened, behind_opening, behind_file, disk.faults()],
    }
}

fn try_unopened(disk: &mut RealDisk<'_>) -> [bool; 4] {
    let mut piece = [0; 4];
    let sized = disk.len().is_ok();
    let read = disk.read(0, &mut piece).is_ok();
    let written = disk.write_at(0, b"x").is_ok();
    let synced = disk.sync().is_ok();
    [sized, read, written, synced]
}

fn write_pieces(disk: &mut RealDisk<'_>) -> [bool; 4] {
    let front = disk.write_at(0, FRONT).is_ok();
    let behind = disk.write_at(10, BEHIND).is_ok();
    let past = disk.write_at(u64::MAX, b"x").is_ok();
    let synced = disk.sync().is_ok();
    [front, behind, past, synced]
}

// Whether another disk opens the file, which one has open.
fn open_twice(rt: &HostRuntime, name: &str) -> bool {
    let mut other = RealDisk::new(rt, rt.alloc(), Names::none());
    other.open_disk(name).is_ok()
}

// Whether the file opens once its first byte is a letter.
fn open_text(disk: &mut RealDisk<'_>, name: &str) -> bool {
    let _ = disk.write_at(0, b"n");
    disk.open_disk(name).is_ok()
}

// How long the file is when it is opened once more: opening keeps what it holds.
fn reopen(disk: &mut RealDisk<'_>, name: &str) -> u64 {
    let _ = disk.open_disk(name);
    disk.len().unwrap_or(99)
}
