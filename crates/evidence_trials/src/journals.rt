//! The player of journals of records on a disk in memory.
//!
//! ```text
//! problem            the problem of the GCNF text below
//! byte 1 0 7         the disk has these bytes behind those so far
//! lines              and then the bytes of the text below
//! salvage            where the journal ends, the byte there, and the sets of its records; or the place of what is foreign
//! fail 3 4           these calls of the next disk that a journal is started on fail, from 1; a salvage's calls come first
//! start              salvages the disk, and goes on with its journal: the sets of its records
//! append             the record whose lines the text below is: the answer
//! close              ends the journal: the bytes of its disk, which a next start begins with
//! ```
mod running;

use evidence_rec::Record;
use gm_base::{Kind, Problem};
use gm_journal::{JournalRead, Salvaged, salvage};
use gm_ports::{Calls, MemDisk};
use running::{Running, started};
use std::alloc::{AllocError, Global};
use std::mem;
use std::sync::Wait;
use trial_bases::problem_of;
use trial_script::{Player, Step, known, show};

/// Has a problem, and the bytes of a disk; or a journal over both, which goes on.
#[derive(Drop)]
pub struct JournalPlayer<'a, R: Wait> {
    rt: &'a R,
    problem: Option<Problem>,
    bytes: Vec<u8>,
    failing: Calls,
    running: Option<Running>,
}

impl<'a, R: Wait> JournalPlayer<'a, R> {
    pub fn new(rt: &'a R, alloc: Global) -> JournalPlayer<'a, R> {
        JournalPlayer {
            rt,
            problem: None,
            bytes: Vec::new(alloc),
            failing: Calls::new(alloc),
            running: None,
        }
    }
}

impl<R: Wait> Player for JournalPlayer<'_, R> {
    fn begin(&mut self, alloc: Global) -> Result<(), AllocError> {
        self.problem = None;
        self.bytes = Vec::new(alloc);
        self.failing = Calls::new(alloc);
        self.running = None;
        Ok(())
    }

    fn call(
        &mut self,
        alloc: Global,
        step: &Step<'_>,
        out: &mut String,
    ) -> Result<bool, AllocError> {
        match step.word(0) {
            "problem" => {
                self.problem = problem_of(alloc, step.text())?;
                Ok(self.problem.is_some())
            }
            "byte" => push_bytes(&mut self.bytes, step),
            "lines" => known(self.bytes.extend_from_slice(step.text())),
            "salvage" => match &self.problem {
                Some(problem) => show_salvaged(problem, self.bytes.as_slice(), alloc, out),
                None => Ok(false),
            },
            "fail" => {
                self.failing = calls_of(alloc, step)?;
                Ok(true)
            }
            "start" => self.start(alloc, out),
            "append" => match &mut self.running {
                Some(running) => running.append(self.rt, alloc, step, out),
                None => Ok(false),
            },
            "close" => self.close(alloc, out),
            _ => Ok(false),
        }
    }
}

impl<R: Wait> JournalPlayer<'_, R> {
    /// Starts a journal on a disk of the bytes, which takes the problem.
    fn start(&mut self, alloc: Global, out: &mut String) -> Result<bool, AllocError> {
        let Some(problem) = self.problem.take() else {
            return Ok(false);
        };
        let failing = mem::replace(&mut self.failing, Calls::new(alloc));
        let disk = MemDisk::new(alloc, self.bytes.as_slice(), failing, 40, 400)?;
        self.running = started(alloc, problem, disk, out)?;
        Ok(true)
    }

    /// Ends the journal, which gives back the problem and the bytes, and shows these.
    fn close(&mut self, alloc: Global, out: &mut String) -> Result<bool, AllocError> {
        let Some(running) = self.running.take() else {
            return Ok(false);
        };
        let (problem, disk) = running.close(alloc)?;
        self.problem = Some(problem);
        self.bytes = Vec::from_slice(alloc, disk.bytes())?;
        show_bytes(self.bytes.as_slice(), out)
    }
}

/// Adds the numbers behind the first word.
fn push_bytes(bytes: &mut Vec<u8>, step: &Step<'_>) -> Result<bool, AllocError> {
    for at in 1..step.words().len() {
        let Some(number) = step.amount(at) else {
            return Ok(false);
        };
        let Ok(byte) = u8::try_from(number) else {
            return Ok(false);
        };
        bytes.push(byte)?;
    }
    Ok(true)
}

/// The numbers behind the first word, as those of calls.
fn calls_of(alloc: Global, step: &Step<'_>) -> Result<Calls, AllocError> {
    let mut numbers = Vec::new(alloc);
    for at in 1..step.words().len() {
        if let Some(number) = step.amount(at) {
            numbers.push(number)?;
        }
    }
    Calls::from_slice(alloc, numbers.as_slice())
}

/// Adds a line of these bytes, as numbers.
fn show_bytes(bytes: &[u8], out: &mut String) -> Result<bool, AllocError> {
    out.push_str("bytes")?;
    for byte in bytes {
        write!(out, " {byte}")?;
    }
    show("", out)
}

/// Salvages a disk of these bytes, and shows what it gave.
fn show_salvaged(
    problem: &Problem,
    bytes: &[u8],
    alloc: Global,
    out: &mut String,
) -> Result<bool, AllocError> {
    let mut disk = MemDisk::new(alloc, bytes, Calls::new(alloc), 40, 0)?;
    match salvage(alloc, problem, &mut disk) {
        JournalRead::Salvaged(salvaged) => show_records(&salvaged, out),
        JournalRead::Foreign { at } => known(writeln!(out, "foreign at {at}")),
        JournalRead::Failed => known(writeln!(out, "failed")),
        JournalRead::Memory => Err(AllocError),
    }
}

fn show_records(salvaged: &Salvaged, out: &mut String) -> Result<bool, AllocError> {
    let gate = salvaged.gate;
    match salvaged.last {
        Some(byte) => write!(out, "gate {gate} is {byte}")?,
        None => write!(out, "gate {gate} is none")?,
    }
    push_sets(salvaged.records.as_slice(), out)?;
    show("", out)
}

/// Adds the kinds and the sets of these records.
pub(crate) fn push_sets(records: &[Record], out: &mut String) -> Result<(), AllocError> {
    for record in records {
        push_set(record, out)?;
    }
    Ok(())
}

fn push_set(record: &Record, out: &mut String) -> Result<(), AllocError> {
    out.push_str(match record.kind() {
        Kind::Conflict => ", conflict",
        Kind::Correction => ", correction",
    })?;
    for group in record.set().as_slice() {
        write!(out, " {group}")?;
    }
    Ok(())
}
