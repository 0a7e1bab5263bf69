//! A run of the program, and what it left.
use gm_ports::{Disk, Files, Gate, MemDisk, Sink};
use gm_tool::{Finish, run};
use std::alloc::{AllocError, Global};
use std::sync::Wait;
use std::thread::Threads;
use trial_ports::NamedDisk;
use trial_runs::{Answer, Handed, Left, Outside, Setting, Stored};

/// Runs the program. All that is tried goes through this one call of it, over anything, and what `run` promises ends here: it is
/// not asked for what is printed.
fn run_over<R: Threads + Wait + Sync, F: Files, O: Sink, E: Sink, G: Gate, D: Disk + Send + Drop>(
    rt: &R,
    alloc: Global,
    words: &[String],
    files: &mut F,
    out: &mut O,
    err: &mut E,
    gate: &G,
    disk: D,
) -> (Finish, Option<D>) {
    run(rt, alloc, words, files, out, err, gate, disk)
}

/// Runs the program over these files, and gives back the disk.
fn run_stored<R: Threads + Wait + Sync, D: Disk + Send + Drop>(
    rt: &R,
    alloc: Global,
    stored: &mut Stored,
    handed: &mut Handed,
    disk: D,
) -> (Finish, Option<D>) {
    let words = handed.words.as_slice();
    let out = &mut handed.out;
    let err = &mut handed.err;
    let gate = &handed.gate;
    match stored {
        Stored::Mem(files) => run_over(rt, alloc, words, files, out, err, gate, disk),
        Stored::Sure(files) => run_over(rt, alloc, words, files, out, err, gate, disk),
    }
}

/// What a run answered. The rest of it ends here, so that no other proof has to drop it.
fn answer_of(finish: Finish) -> Answer {
    let records = match &finish.closing {
        Some(closing) => Some(closing.records.len()),
        None => None,
    };
    Answer {
        status: finish.status,
        spent: finish.spent,
        records,
    }
}

/// Runs the program over these files and the disk that has what it holds under names, which comes back.
fn run_named<R: Threads + Wait + Sync>(
    rt: &R,
    alloc: Global,
    files: &mut Outside,
    handed: &mut Handed,
    named: NamedDisk,
) -> Answer {
    let (finish, named) = run_stored(rt, alloc, &mut files.files, handed, named);
    files.named = named;
    answer_of(finish)
}

/// Runs the program over these files and the disk, which comes back.
fn run_on<R: Threads + Wait + Sync>(
    rt: &R,
    alloc: Global,
    files: &mut Outside,
    handed: &mut Handed,
    disk: MemDisk,
) -> Answer {
    let (finish, disk) = run_stored(rt, alloc, &mut files.files, handed, disk);
    files.disk = disk;
    answer_of(finish)
}

/// Runs the program over these files and their disk. Without a disk there is no run.
fn run_outside<R: Threads + Wait + Sync>(
    rt: &R,
    alloc: Global,
    files: &mut Outside,
    handed: &mut Handed,
) -> Option<Answer> {
    if let Some(named) = files.named.take() {
        return Some(run_named(rt, alloc, files, handed, named));
    }
    let disk = files.disk.take()?;
    Some(run_on(rt, alloc, files, handed, disk))
}

/// Runs these words over these files, with sinks and a gate as the setting tells.
pub fn run_words<R: Threads + Wait + Sync>(
    rt: &R,
    alloc: Global,
    words: &[&str],
    setting: &Setting,
    files: &mut Outside,
) -> Result<Left, AllocError> {
    let mut handed = Handed::new(alloc, words, setting)?;
    let before = handed.faults(files);
    match run_outside(rt, alloc, files, &mut handed) {
        Some(answer) => handed.left(alloc, answer, files, before),
        None => Err(AllocError),
    }
}
