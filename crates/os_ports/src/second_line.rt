//! A second line on standard error, for a person: after a 2 the word that can't stand where it does, after a 6 and a 7 which file, and
//! why.
//!
//! `run` writes the first line, which programs read. The second begins with two blanks, and never with `gmus: `.
use crate::disk::RealDisk;
use crate::files::RealFiles;
use crate::sinks::StreamSink;
use gm_ports::write_all;
use gm_words::why_unread;
use os_files::Fault;
use std::alloc::Global;
use std::env::{Env, FillError};
use std::fmt::{Display, Formatter};
use std::io::Print;
use std::{fmt, rt, str};

/// Tells of words without a reading which one can't stand where it does, if that is found.
pub fn tell_of_words<E: Print>(alloc: Global, words: &[String], err: &mut StreamSink<E>) {
    if let Ok(Some(unread)) = why_unread(alloc, words) {
        tell(alloc, unread, err);
    }
}

/// Tells which word is not text, if that is found.
pub fn tell_of_bytes<E: Print>(rt: &impl Env, alloc: Global, err: &mut StreamSink<E>) {
    if let Some(at) = first_not_text(rt) {
        tell(alloc, NotText(at), err);
    }
}

/// The number of a word after the program's name, which is not text.
#[derive(Clone, Copy)]
struct NotText(usize);

impl Display for NotText {
    fn fmt<W: fmt::Write>(&self, f: &mut Formatter<W>) -> fmt::Result {
        let at = self.0;
        write!(f, "word {at}: has to be UTF-8")
    }
}

/// Tells why a call of the system did not work.
pub fn tell_of_fault<E: Print>(alloc: Global, fault: Option<Fault<'_>>, err: &mut StreamSink<E>) {
    if let Some(fault) = fault {
        tell(alloc, fault, err);
    }
}

/// Why a run ended with 6 or 7: one call of the system did not work, and the run ended there.
pub fn fault_of<'a, R: rt::Files, O: Print>(
    status: u8,
    files: &RealFiles<'a, R>,
    disk: Option<&RealDisk<'a>>,
    out: &StreamSink<O>,
) -> Option<Fault<'a>> {
    let of_disk = match disk {
        Some(disk) => disk.fault(),
        None => None,
    };
    match status {
        6 => of_disk.or(files.fault()),
        7 => of_disk.or(files.fault()).or(out.fault()),
        _ => None,
    }
}

/// Writes the line. If memory is wanting there is none.
fn tell<E: Print, D: Display + Drop>(alloc: Global, more: D, err: &mut StreamSink<E>) {
    if let Ok(line) = format!(in alloc; "  {more}\n") {
        // A fault of standard error changes no status.
        let _ = write_all(err, line.as_bytes());
    }
}

/// The number of the first word after the program's name that is not UTF-8. Of the first thousand, those up to 4,096 bytes are
/// looked at.
fn first_not_text(rt: &impl Env) -> Option<usize> {
    for at in 1..1000 {
        let mut word = [0; 4096];
        match rt.arg(at, &mut word) {
            Ok(length) => {
                if str::from_utf8(&word[..length]).is_err() {
                    return Some(at);
                }
            }
            Err(FillError::NotPresent) => return None,
            Err(FillError::TooLong) => {}
        }
    }
    None
}
