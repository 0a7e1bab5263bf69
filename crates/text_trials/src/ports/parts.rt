//! What files and sinks in memory are made of.
ghost use Rattle.std.specs.Prelude.{◌<◌};

use crate::numbers::calls_of;
use gm_ports::{Calls, MemFiles, MemSink, Rooms, SureFiles, Texts};
use std::alloc::{AllocError, Global};
use trial_script::Step;

/// What the next files or the next sink are made of.
#[derive(Drop)]
pub struct Parts {
    held: Texts,
    rooms: Rooms,
    failing_reads: Calls,
    failing_writes: Calls,
}

/// What is used.
#[derive(Drop)]
pub enum Port {
    Closed,
    Mem(MemFiles),
    Sure(SureFiles),
    Sink(MemSink),
}

impl Parts {
    pub fn new(alloc: Global) -> Parts {
        Parts {
            held: Texts::new(alloc),
            rooms: Rooms::new(alloc),
            failing_reads: Calls::new(alloc),
            failing_writes: Calls::new(alloc),
        }
    }
}

/// Adds a part to what the next files or the next sink are made of.
pub fn add_part(parts: &mut Parts, alloc: Global, step: &Step<'_>) -> Result<bool, AllocError> {
    match step.word(0) {
        "hold" => parts
            .held
            .push(alloc, step.word(1), step.word(2).as_bytes())?,
        "room" => {
            let Some(room) = step.amount(2) else {
                return Ok(false);
            };
            parts.rooms.push(alloc, step.word(1), room)?;
        }
        "fail_reads" => parts.failing_reads = calls_of(alloc, step)?,
        _ => parts.failing_writes = calls_of(alloc, step)?,
    }
    Ok(true)
}

/// Files or a sink of these parts, if the step's two numbers may be theirs: a call moves at least one byte.
pub fn port_of(alloc: Global, parts: Parts, step: &Step<'_>) -> Result<Option<Port>, AllocError> {
    let first = step.amount(1).unwrap_or(0);
    match (step.word(0), step.amount(2)) {
        ("mem_sink", Some(room)) if first > 0 => sink_of(alloc, parts, first as usize, room),
        ("sure_files", Some(second)) if first > 0 && second > 0 => {
            sure_files_of(alloc, parts, first as usize, second as usize)
        }
        ("mem_files", Some(second)) if first > 0 && second > 0 => {
            mem_files_of(alloc, parts, first as usize, second as usize)
        }
        _ => Ok(None),
    }
}

/// A sink of these parts.
fn sink_of(
    alloc: Global,
    parts: Parts,
    per_write: usize,
    room: u64,
) -> Result<Option<Port>, AllocError>
    requires { 0 < per_write }
{
    let sink = MemSink::new(alloc, per_write, room, parts.failing_writes)?;
    Ok(Some(Port::Sink(sink)))
}

/// Files of these parts, of which no call fails.
fn sure_files_of(
    alloc: Global,
    parts: Parts,
    per_read: usize,
    per_write: usize,
) -> Result<Option<Port>, AllocError>
    requires reads_some { 0 < per_read }
    requires writes_some { 0 < per_write }
{
    let files = SureFiles::new(alloc, parts.held, parts.rooms, per_read, per_write)?;
    Ok(Some(Port::Sure(files)))
}

/// Files of these parts.
fn mem_files_of(
    alloc: Global,
    parts: Parts,
    per_read: usize,
    per_write: usize,
) -> Result<Option<Port>, AllocError>
    requires reads_some { 0 < per_read }
    requires writes_some { 0 < per_write }
{
    let Parts {
        held,
        rooms,
        failing_reads,
        failing_writes,
    } = parts;
    let files = MemFiles::new(
        alloc,
        held,
        rooms,
        per_read,
        per_write,
        failing_reads,
        failing_writes,
    )?;
    Ok(Some(Port::Mem(files)))
}
