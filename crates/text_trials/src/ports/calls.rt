//! Calls of files and sinks in memory.
use crate::shown::show_text;
use gm_ports::{Failed, Files, MemFiles, MemSink, Reading, Sink, SureFiles, read_whole, write_all};
use std::alloc::{AllocError, Global};
use trial_script::{Step, show};

/// Makes a call that all files have.
pub fn call_files<F: Files>(
    files: &mut F,
    alloc: Global,
    into: &mut [u8; 4],
    step: &Step<'_>,
    out: &mut String,
) -> Result<bool, AllocError> {
    let name = step.word(1);
    match step.word(0) {
        "open_in" => show_done(files.open_in(name), out),
        "open_out" => show_done(files.open_out(name), out),
        "finish_out" => show_done(files.finish_out(), out),
        "read" => show_moved(files.read(into), out),
        "write" => show_moved(files.write(name.as_bytes()), out),
        "put" => show_moved(put(files, name, step.word(2).as_bytes()), out),
        "read_whole" => read_file(files, alloc, step, out),
        _ => Ok(false),
    }
}

/// Opens an output, writes the text once and ends it; how much of it was taken.
fn put<F: Files>(files: &mut F, name: &str, text: &[u8]) -> Result<usize, Failed> {
    files.open_out(name)?;
    let taken = files.write(text)?;
    files.finish_out()?;
    Ok(taken)
}

/// Reads a whole file, up to a limit.
fn read_file<F: Files>(
    files: &mut F,
    alloc: Global,
    step: &Step<'_>,
    out: &mut String,
) -> Result<bool, AllocError> {
    let Some(limit) = step.amount(2) else {
        return Ok(false);
    };
    match read_whole(alloc, files, step.word(1), limit) {
        Reading::Whole(bytes) => show_text(bytes.as_slice(), out),
        Reading::TooLong => show("too long", out),
        Reading::Failed => show("failed", out),
        Reading::Memory => Err(AllocError),
    }
}

/// Tells what files that may fail hold, and how many of their calls failed.
pub fn ask_mem_files(
    files: &MemFiles,
    step: &Step<'_>,
    out: &mut String,
) -> Result<bool, AllocError> {
    match step.word(0) {
        "held" => match files.held(step.word(1)) {
            Some(text) => show_text(text, out),
            None => show("none", out),
        },
        "faults" => {
            let (reading, writing) = (files.read_faults(), files.write_faults());
            writeln!(out, "{reading} of reading, {writing} of writing")?;
            Ok(true)
        }
        _ => Ok(false),
    }
}

/// Tells what files that never fail keep, and whether they still tell all.
pub fn ask_sure_files(
    files: &SureFiles,
    step: &Step<'_>,
    out: &mut String,
) -> Result<bool, AllocError> {
    match step.word(0) {
        "held" => show_text(files.held(step.word(1)), out),
        "tells" => show(if files.tells() { "all" } else { "not all" }, out),
        _ => Ok(false),
    }
}

/// Makes a call of a sink, or tells what it got and how many of its calls failed.
pub fn call_sink(
    sink: &mut MemSink,
    step: &Step<'_>,
    out: &mut String,
) -> Result<bool, AllocError> {
    let text = step.word(1).as_bytes();
    match step.word(0) {
        "write" => show_moved(sink.write(text), out),
        "write_all" => show_done(write_all(sink, text), out),
        "got" => show_text(sink.got(), out),
        "faults" => {
            let faults = sink.faults();
            writeln!(out, "{faults}")?;
            Ok(true)
        }
        _ => Ok(false),
    }
}

/// Adds a line that says whether a call was made.
fn show_done(answer: Result<(), Failed>, out: &mut String) -> Result<bool, AllocError> {
    show(if answer.is_ok() { "ok" } else { "failed" }, out)
}

/// Adds a line that says how many bytes a call moved.
fn show_moved(answer: Result<usize, Failed>, out: &mut String) -> Result<bool, AllocError> {
    let Ok(count) = answer else {
        return show("failed", out);
    };
    writeln!(out, "{count}")?;
    Ok(true)
}
