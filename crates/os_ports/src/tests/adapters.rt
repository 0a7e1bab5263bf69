//! Calls of the adapters in a row, and what they answered.
use crate::files::RealFiles;
use crate::sinks::StreamSink;
use gm_ports::{Files, Reading, Sink, read_whole};
use os_files::Names;
use std::alloc::Global;
use std::io::Print;
use std::{fs, rt};

// The text that is written and read.
const TEXT: &[u8] = b"p gcnf 0 0 0\n";

/// What the calls answered.
#[derive(Clone, Copy)]
pub(super) struct Told {
    /// What `write_text` tells.
    pub(super) written: (usize, [bool; 5]),
    /// What is read: of the text; up to one byte less; where the file is gone; and of a folder, which opens.
    pub(super) read: [&'static str; 4],
    /// Whether the file could be removed.
    pub(super) removed: bool,
    /// What `fill` tells.
    pub(super) filled: [bool; 2],
    /// The counts of faults: behind the writing, the reading, and the device that is full.
    pub(super) faults: [(u64, u64); 3],
    /// What standard output and standard error took.
    pub(super) streams: [(usize, u64); 2],
}

/// Tries the adapters over a file of this name and over the standard streams. It has no branch: what was answered is looked
/// at afterwards.
pub(super) fn try_adapters(rt: &HostRuntime, name: &str) -> Told {
    let alloc = rt.alloc();
    let mut files = RealFiles::new(rt, alloc, Names::none(), 1);
    let written = write_text(&mut files, name);
    let behind_writing = files.faults();
    let whole = read_text(alloc, &mut files, name, 13);
    let too_long = read_text(alloc, &mut files, name, 12);
    let removed = fs::remove_file(rt, name).is_ok();
    let gone = read_text(alloc, &mut files, name, 13);
    let folder = read_text(alloc, &mut files, "/tmp", 13);
    let behind_reading = files.faults();
    let filled = fill(&mut files);
    let behind_filling = files.faults();
    let out = tell(rt.stdout(), b"to standard output\n");
    let err = tell(rt.stderr(), b"to standard error\n");
    Told {
        written,
        read: [whole, too_long, gone, folder],
        removed,
        filled,
        faults: [behind_writing, behind_reading, behind_filling],
        streams: [out, err],
    }
}

/// Writes the text under this name. How many bytes were written, and which calls worked: a write where nothing is opened,
/// opening the empty name, which is no file's, opening the name, ending the output, and ending it once more.
fn write_text<R: rt::Files>(files: &mut RealFiles<'_, R>, name: &str) -> (usize, [bool; 5]) {
    let unopened = files.write(b"x").is_ok();
    let unnamed = files.open_out("").is_ok();
    let opened = files.open_out(name).is_ok();
    let written = files.write(TEXT).unwrap_or(0);
    let ended = files.finish_out().is_ok();
    let ended_again = files.finish_out().is_ok();
    (written, [unopened, unnamed, opened, ended, ended_again])
}

/// What is read under this name, up to this limit.
fn read_text<R: rt::Files>(
    alloc: Global,
    files: &mut RealFiles<'_, R>,
    name: &str,
    limit: u64,
) -> &'static str {
    match read_whole(alloc, files, name, limit) {
        Reading::Whole(bytes) => told_of(bytes.as_slice()),
        Reading::TooLong => "too long",
        Reading::Failed => "failed",
        Reading::Memory => "out of memory",
    }
}

fn told_of(bytes: &[u8]) -> &'static str {
    if bytes == TEXT {
        "the text"
    } else {
        "another text"
    }
}

/// Whether a device that is full opens, and whether it takes a byte.
fn fill<R: rt::Files>(files: &mut RealFiles<'_, R>) -> [bool; 2] {
    let opened = files.open_out("/dev/full").is_ok();
    let written = files.write(b"x").is_ok();
    [opened, written]
}

/// How many bytes of a line a stream took, and how many faults it counted.
fn tell<P: Print + Drop>(stream: P, line: &[u8]) -> (usize, u64) {
    let mut sink = StreamSink::new(stream, "a stream");
    let taken = sink.write(line).unwrap_or(0);
    (taken, sink.faults())
}
