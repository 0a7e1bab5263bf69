//! Lists a problem of four clauses.
use gm_ports::{Calls, Gate, MemFiles, MemSink, NoDisk, OpenGate, Rooms, Texts};
use gm_tool::run;
use std::alloc::{AllocError, Global};
use std::sync::Wait;
use std::test::Fail;
use std::thread::Threads;
use trial_ports::Meeting;

// Four clauses: x, not x, x implies y, and not y, each in a group of its own.
const FIRST: &str = "p gcnf 2 4 4\n{1} 1 0\n{2} -1 0\n{3} -1 2 0\n{4} -2 0\n";

const FIRST_REPORT: &str =
    "p gmus 4\ns COMPLETE\nu 1 2 0\nu 1 3 4 0\nm 1 0\nm 2 3 0\nm 2 4 0\ne 2 3\n";

// Files in memory, of which `f` holds the four clauses.
fn first_files(alloc: Global) -> Result<MemFiles, AllocError> {
    let mut held = Texts::new(alloc);
    held.push(alloc, "f", FIRST.as_bytes())?;
    let rooms = Rooms::new(alloc);
    let (reads, writes) = (Calls::new(alloc), Calls::new(alloc));
    MemFiles::new(alloc, held, rooms, 1000, 1000, reads, writes)
}

fn words_of(alloc: Global, line: &str) -> Result<Vec<String>, AllocError> {
    let mut words = Vec::new(alloc);
    for word in line.split(' ') {
        words.push(String::from_str(alloc, word)?)?;
    }
    Ok(words)
}

// Runs the words of this line over such files. The status, and whether the report's sink got the report.
fn run_on_first<R: Threads + Wait + Sync, G: Gate>(
    rt: &R,
    alloc: Global,
    line: &str,
    gate: &G,
) -> Result<(u8, bool), AllocError> {
    let words = words_of(alloc, line)?;
    let mut files = first_files(alloc)?;
    run_words(rt, alloc, words.as_slice(), &mut files, gate)
}

fn run_words<R: Threads + Wait + Sync, G: Gate>(
    rt: &R,
    alloc: Global,
    words: &[String],
    files: &mut MemFiles,
    gate: &G,
) -> Result<(u8, bool), AllocError> {
    let mut out = MemSink::new(alloc, 1000, 1000, Calls::new(alloc))?;
    let mut err = MemSink::new(alloc, 1000, 1000, Calls::new(alloc))?;
    let disk = NoDisk::new();
    let (finish, _) = run(rt, alloc, words, files, &mut out, &mut err, gate, disk);
    Ok((finish.status, out.got() == FIRST_REPORT.as_bytes()))
}

#[test]
fn four_clauses_are_listed(rt: HostRuntime) -> Result<(), Fail> {
    let listed = run_on_first(&rt, rt.alloc(), "list f", &OpenGate)?;
    assert_eq!(rt; listed, (0, true));
    Ok(())
}

// A lock round a whole job would keep the second worker from the gate while the first one is held there.
#[test]
fn two_workers_have_jobs_at_the_same_time(rt: HostRuntime) -> Result<(), Fail> {
    let gate = Meeting::new(true);
    let listed = run_on_first(&rt, rt.alloc(), "list f --jobs 2", &gate)?;
    assert_eq!(rt; listed, (0, true));
    assert_eq!(rt; gate.met(), Some(true));
    Ok(())
}
