//! The program: the real files and streams, the words of the command line, and one call of `run`.
#![tactic(auto)]

mod system;

use gm_ports::write_all;
use gm_words::read_words;
use os_files::Names;
use os_ports::{
    RealDisk, RealFiles, StreamSink, fault_of, tell_of_bytes, tell_of_fault, tell_of_words,
};
use std::alloc::{AllocError, Global};
use std::io::Print;
use std::process::ExitCode;
use std::{env, fs, io, process};
use system::run_on_system;

fn main(rt: HostRuntime) -> ExitCode {
    let _held = hold_streams(&rt);
    let alloc = rt.alloc();
    let mut err = StreamSink::new(rt.stderr(), "standard error");
    let Ok(given) = words_after_name(&rt, alloc) else {
        return out_of_memory(&mut err);
    };
    let words = given.words.as_slice();
    let Ok(names) = names_in(alloc, words) else {
        return out_of_memory(&mut err);
    };
    let mut files = RealFiles::new(&rt, alloc, names, process::id(rt.process()));
    let mut out = StreamSink::new(rt.stdout(), "standard output");
    let disk = RealDisk::new(&rt, alloc, names);
    let (finish, disk) = run_on_system(&rt, alloc, words, &mut files, &mut out, &mut err, disk);
    files.leave_output();
    let status = finish.status;
    if !given.are_text {
        tell_of_bytes(&rt, alloc, &mut err);
    } else if status == 2 {
        tell_of_words(alloc, words, &mut err);
    }
    let fault = fault_of(status, &files, disk.as_ref(), &out);
    tell_of_fault(alloc, fault, &mut err);
    ExitCode::from(status)
}

/// Has the numbers of the standard streams taken. If one of them is closed, the next file that is opened would get its number,
/// and what is written to the stream would go into that file. Here it gets one that takes no byte.
fn hold_streams(rt: &HostRuntime) -> [io::Result<fs::File>; 3] {
    let name = "/dev/null";
    [fs::open(rt, name), fs::open(rt, name), fs::open(rt, name)]
}

/// The words after the program's name. One that is not UTF-8 is a wrong command line, as no words are.
#[derive(Drop)]
struct Given {
    words: Vec<String>,
    are_text: bool,
}

fn words_after_name(
    rt: &(impl env::Env + AllocGlobal),
    alloc: Global,
) -> Result<Given, AllocError> {
    match words_of(rt, alloc) {
        Ok(words) => Ok(Given {
            words,
            are_text: true,
        }),
        Err(why) if why.kind() == io::ErrorKind::OutOfMemory => Err(AllocError),
        Err(_) => Ok(Given {
            words: Vec::new(alloc),
            are_text: false,
        }),
    }
}

fn words_of(rt: &(impl env::Env + AllocGlobal), alloc: Global) -> io::Result<Vec<String>> {
    let words = env::args(rt)?.skip(1).collect(alloc)?;
    Ok(words)
}

/// The names in these words; none if they have no reading.
fn names_in<'a>(alloc: Global, words: &'a [String]) -> Result<Names<'a>, AllocError> {
    match read_words(alloc, words)? {
        Some(request) => Ok(Names::of(&request)),
        None => Ok(Names::none()),
    }
}

/// Ends before the run began.
fn out_of_memory(err: &mut StreamSink<impl Print>) -> ExitCode {
    // A fault of standard error changes no status.
    let _ = write_all(err, b"gmus: out of memory\n");
    ExitCode::from(8)
}
