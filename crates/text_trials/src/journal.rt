//! The player of journals on a disk in memory.
//!
//! ```text
//! fail 3 4           these calls of the next disk fail, from 1
//! disk 1 0 7         a disk of these bytes, that keeps 40 calls and 400 bytes
//! again              a disk of the bytes that reads of this one give
//! salvage            where the journal ends, and then its texts; or the place of what is foreign; or `failed`
//! start              goes on from where the last salvage ended
//! append             its text, behind the ending gate
//! | m 0
//! bytes              what reads give
//! faults             how many calls failed
//! ```
//!
//! The judge takes each text that is not empty.
ghost use Rattle.std.specs.Prelude.{◌<◌};

mod judge;

use crate::numbers::{calls_of, numbers_of};
use crate::shown::{push_text, show_text};
use disk_frames::{End, FramedText, Salvaged, append, salvage, start};
use gm_ports::{Calls, Disk, MemDisk};
use judge::SomeTexts;
use std::alloc::{AllocError, Global};
use std::mem;
use trial_script::{Player, Step, show};

/// Has a disk, and where the journal on it ends.
#[derive(Drop)]
pub struct JournalPlayer {
    failing: Calls,
    disk: Option<MemDisk>,
    end: Option<End>,
}

impl JournalPlayer {
    pub fn new(alloc: Global) -> JournalPlayer {
        JournalPlayer {
            failing: Calls::new(alloc),
            disk: None,
            end: None,
        }
    }
}

impl Player for JournalPlayer {
    fn begin(&mut self, alloc: Global) -> Result<(), AllocError> {
        self.failing = Calls::new(alloc);
        self.disk = None;
        self.end = None;
        Ok(())
    }

    fn call(
        &mut self,
        alloc: Global,
        step: &Step<'_>,
        out: &mut String,
    ) -> Result<bool, AllocError> {
        match step.word(0) {
            "fail" => {
                self.failing = calls_of(alloc, step)?;
                Ok(true)
            }
            "disk" => {
                let bytes = bytes_of(alloc, step)?;
                self.make(alloc, bytes.as_slice())
            }
            "again" => {
                let bytes = match &self.disk {
                    Some(disk) => Vec::from_slice(alloc, disk.bytes())?,
                    None => return Ok(false),
                };
                self.make(alloc, bytes.as_slice())
            }
            _ => match &mut self.disk {
                Some(disk) => call_disk(disk, &mut self.end, alloc, step, out),
                None => Ok(false),
            },
        }
    }
}

impl JournalPlayer {
    /// Makes a disk of these bytes.
    fn make(&mut self, alloc: Global, bytes: &[u8]) -> Result<bool, AllocError> {
        let failing = mem::replace(&mut self.failing, Calls::new(alloc));
        self.disk = Some(MemDisk::new(alloc, bytes, failing, 40, 400)?);
        self.end = None;
        Ok(true)
    }
}

/// The numbers behind the first word, as bytes.
fn bytes_of(alloc: Global, step: &Step<'_>) -> Result<Vec<u8>, AllocError> {
    let mut bytes = Vec::new(alloc);
    for number in numbers_of(alloc, step)?.iter() {
        bytes.push((*number % 256) as u8)?;
    }
    Ok(bytes)
}

/// Makes a call on a disk and the journal on it.
fn call_disk(
    disk: &mut MemDisk,
    end: &mut Option<End>,
    alloc: Global,
    step: &Step<'_>,
    out: &mut String,
) -> Result<bool, AllocError> {
    match step.word(0) {
        "salvage" => show_salvaged(disk, end, alloc, out),
        "start" => match *end {
            Some(last) => {
                let done = start(disk, last).is_ok();
                show(if done { "ok" } else { "failed" }, out)
            }
            None => Ok(false),
        },
        "append" => match *end {
            Some(last) if last.gate < 1000 => {
                let text = FramedText::new(alloc, step.text())?;
                *end = add_text(disk, last, &text);
                show_gate(*end, out)
            }
            _ => Ok(false),
        },
        "bytes" => show_text(disk.bytes(), out),
        "faults" => {
            let faults = disk.faults();
            writeln!(out, "{faults}")?;
            Ok(true)
        }
        _ => Ok(false),
    }
}

/// Appends a text; where the journal ends then, if the append did not fail.
fn add_text(disk: &mut MemDisk, end: End, text: &FramedText) -> Option<End>
    requires { end.gate < 1000 }
{
    match append(disk, end.gate, text) {
        Ok(gate) => Some(End {
            gate,
            last: Some(0),
        }),
        Err(_) => None,
    }
}

/// Adds a line that says where the journal ends.
fn show_gate(end: Option<End>, out: &mut String) -> Result<bool, AllocError> {
    let Some(End { gate, .. }) = end else {
        return show("failed", out);
    };
    writeln!(out, "gate {gate}")?;
    Ok(true)
}

/// Salvages the disk, and shows where it ends and which texts it gave.
fn show_salvaged(
    disk: &mut MemDisk,
    end: &mut Option<End>,
    alloc: Global,
    out: &mut String,
) -> Result<bool, AllocError> {
    let mut judge = SomeTexts::new(alloc);
    match salvage(alloc, disk, &mut judge) {
        Salvaged::Ended(found) => {
            *end = Some(found);
            let gate = found.gate;
            match found.last {
                Some(byte) => write!(out, "gate {gate} is {byte}")?,
                None => write!(out, "gate {gate} is none")?,
            }
            for text in judge.texts() {
                out.push_str(", ")?;
                push_text(text.as_slice(), out)?;
            }
            show("", out)
        }
        Salvaged::Foreign(at) => {
            writeln!(out, "foreign at {at}")?;
            Ok(true)
        }
        Salvaged::Failed => show("failed", out),
        Salvaged::Memory => Err(AllocError),
    }
}
