//! The player of files and sinks in memory.
//!
//! First what they are made of, then the one of them that is used up to the next:
//!
//! ```text
//! hold f old         a file `f` is held, with this text; with none it is empty
//! room g 9           `g` may be written, up to 9 bytes
//! fail_reads 1 3     these calls of reading fail, or with `fail_writes` these calls of writing
//! mem_files 4 2      files of which a read moves at most 4 bytes and a write at most 2
//! sure_files 4 2     the same, of which no call fails
//! mem_sink 2 9       a sink that takes at most 2 bytes a write, and 9 in all
//! ```
//!
//! Then its calls, which answer `ok`, how many bytes they moved, or `failed`:
//!
//! ```text
//! open_in f          open_out g         finish_out
//! read               reads into the same 4 bytes each time, which `into` shows
//! write ab           one call; with no text one of no bytes
//! put g ab           opens the output, writes once and ends it, up to the call that fails
//! read_whole f 13    the file, if it is no longer than that
//! write_all ab       the whole text, to a sink
//! ```
//!
//! And what they tell: `held f`; `got`, of a sink; `tells`, whether sure files still tell all; `faults`, of reading and of
//! writing, or of a sink alone.
mod calls;
mod parts;

use crate::shown::show_text;
use calls::{ask_mem_files, ask_sure_files, call_files, call_sink};
use parts::{Parts, Port, add_part, port_of};
use std::alloc::{AllocError, Global};
use std::mem;
use trial_script::{Player, Step};

/// Has files or a sink in memory.
#[derive(Drop)]
pub struct PortsPlayer {
    parts: Parts,
    port: Port,
    into: [u8; 4],
}

impl PortsPlayer {
    pub fn new(alloc: Global) -> PortsPlayer {
        PortsPlayer {
            parts: Parts::new(alloc),
            port: Port::Closed,
            into: [0; 4],
        }
    }

    /// Makes files or a sink of the parts.
    fn make(&mut self, alloc: Global, step: &Step<'_>) -> Result<bool, AllocError> {
        let parts = mem::replace(&mut self.parts, Parts::new(alloc));
        match port_of(alloc, parts, step)? {
            Some(port) => {
                self.port = port;
                Ok(true)
            }
            None => Ok(false),
        }
    }
}

impl Player for PortsPlayer {
    fn begin(&mut self, alloc: Global) -> Result<(), AllocError> {
        self.parts = Parts::new(alloc);
        self.port = Port::Closed;
        self.into = [0; 4];
        Ok(())
    }

    fn call(
        &mut self,
        alloc: Global,
        step: &Step<'_>,
        out: &mut String,
    ) -> Result<bool, AllocError> {
        match step.word(0) {
            "hold" | "room" | "fail_reads" | "fail_writes" => add_part(
                &mut self.parts,
                alloc,
                step,
            ),
            "mem_files" | "sure_files" | "mem_sink" => self.make(alloc, step),
            "into" => show_text(&self.into, out),
            _ => call_port(&mut self.port, alloc, &mut self.into, step, out),
        }
    }
}

/// Makes a call of what is used.
fn call_port(
    port: &mut Port,
    alloc: Global,
    into: &mut [u8; 4],
    step: &Step<'_>,
    out: &mut String,
) -> Result<bool, AllocError> {
    match port {
        Port::Closed => Ok(false),
        Port::Mem(files) => {
            Ok(ask_mem_files(files, step, out)? || call_files(files, alloc, into, step, out)?)
        }
        Port::Sure(files) => {
            Ok(ask_sure_files(files, step, out)? || call_files(files, alloc, into, step, out)?)
        }
        Port::Sink(sink) => call_sink(sink, step, out),
    }
}
