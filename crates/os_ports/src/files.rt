//! The files of the system. What they hold is not told.
ghost use Rattle.std.specs.Prelude.{◌≡◌, None, ◌≤◌, ◌-◌, ◌^◌};
ghost use Rattle.gm_ports.specs.Faults.{Rose};

use gm_ports::{Failed, Files};
use os_files::{Fault, Maker, Names, Output, no_clash, nothing_opened, nothing_taken};
use std::alloc::Global;
use std::io::Read;
use std::marker::Model;
use std::{fs, io, rt};

/// The system's files, with counts of the calls that did not work, and why the last of them did not.
#[derive(Drop)]
pub struct RealFiles<'a, R: rt::Files> {
    rt: &'a R,
    alloc: Global,
    /// The number of this process.
    process: u32,
    names: Names<'a>,
    input: Option<R::File>,
    /// The name of the input, as it was given.
    reading: &'a str,
    output: Option<Output<R>>,
    /// The name of the output, as it was given.
    writing: &'a str,
    fault: Option<Fault<'a>>,
    read_faults: u64,
    write_faults: u64,
    ghost reads_in_range: { read_faults ≤ 2 ^ 64 - 1 },
    ghost writes_in_range: { write_faults ≤ 2 ^ 64 - 1 },
}

impl<'a, R: rt::Files> Model for RealFiles<'a, R> {
    ghost use Rattle.os_ports.specs.Counts.{FileFaults};

    ghost Value = { FileFaults };

    ghost view = { λ f. record { read_faults = f.read_faults; write_faults = f.write_faults } };
}

impl<'a, R: rt::Files> RealFiles<'a, R> {
    /// `names` are those of the command line, `process` is the number of this process.
    pub fn new(rt: &'a R, alloc: Global, names: Names<'a>, process: u32) -> Self {
        RealFiles {
            rt,
            alloc,
            process,
            names,
            input: None,
            reading: "",
            output: None,
            writing: "",
            fault: None,
            read_faults: 0,
            write_faults: 0,
        }
    }

    /// Why the last call that failed did not work.
    pub fn fault(&self) -> Option<Fault<'a>> {
        self.fault
    }

    /// Leaves an output that was not ended as it is, since the run ends.
    pub fn leave_output(&mut self)
        ensures reads { self.new.read_faults ≡ self.old.read_faults }
        ensures writes { self.new.write_faults ≡ self.old.write_faults }
    {
        if let Some(output) = self.output.take() {
            output.leave(self.rt);
        }
    }

    /// The counts of read and of write faults.
    #[cfg(test)]
    pub fn faults(&self) -> (u64, u64) {
        (self.read_faults, self.write_faults)
    }

    fn read_failed(&mut self, fault: Fault<'a>) -> Failed
        ensures rose { Rose self.old.read_faults self.new.read_faults }
        ensures never_falls { self.old.read_faults ≤ self.new.read_faults }
        ensures other { self.new.write_faults ≡ self.old.write_faults }
        ensures bounded { self.new.read_faults ≤ 2 ^ 64 - 1 }
    {
        self.fault = Some(fault);
        self.read_faults = self.read_faults.saturating_add(1);
        Failed
    }

    fn write_failed(&mut self, fault: Fault<'a>) -> Failed
        ensures rose { Rose self.old.write_faults self.new.write_faults }
        ensures never_falls { self.old.write_faults ≤ self.new.write_faults }
        ensures other { self.new.read_faults ≡ self.old.read_faults }
        ensures bounded { self.new.write_faults ≤ 2 ^ 64 - 1 }
    {
        self.fault = Some(fault);
        self.write_faults = self.write_faults.saturating_add(1);
        Failed
    }

    /// Opens the input of this name, if no name of the command line leads where another one does.
    fn opened(&self, name: &str) -> Result<R::File, Fault<'a>> {
        no_clash(self.rt, self.alloc, &self.names)?;
        match fs::open(self.rt, name) {
            Ok(file) => Ok(file),
            Err(why) => Err(self.on_input(why)),
        }
    }

    /// Opens the output of this name likewise.
    fn made(&self, name: &str) -> Result<Output<R>, Fault<'a>> {
        no_clash(self.rt, self.alloc, &self.names)?;
        let maker = Maker {
            rt: self.rt,
            alloc: self.alloc,
            process: self.process,
        };
        match maker.open(name) {
            Ok(output) => Ok(output),
            Err(why) => Err(self.on_output(why)),
        }
    }

    /// Why a call on the input did not work.
    fn on_input(&self, why: io::Error) -> Fault<'a> {
        let name = self.reading;
        Fault { name, why }
    }

    /// Why a call on the output did not work.
    fn on_output(&self, why: io::Error) -> Fault<'a> {
        let name = self.writing;
        Fault { name, why }
    }
}

impl<'a, R: rt::Files> Files for RealFiles<'a, R> {
    ghost state = { λ f. record { held = λ _. None; unread = None; output = None; written = None; read_faults = f.read_faults; write_faults = f.write_faults } };

    fn open_in(&mut self, name: &str) -> Result<(), Failed> {
        self.input = None;
        self.reading = self.names.given(name);
        match self.opened(name) {
            Ok(file) => {
                self.input = Some(file);
                Ok(())
            }
            Err(fault) => Err(self.read_failed(fault)),
        }
    }

    fn read(&mut self, into: &mut [u8]) -> Result<usize, Failed> {
        let count = match &mut self.input {
            Some(file) => file.read(into),
            None => Err(nothing_opened()),
        };
        match count {
            Ok(count) => Ok(count),
            Err(why) => Err(self.read_failed(self.on_input(why))),
        }
    }

    fn open_out(&mut self, name: &str) -> Result<(), Failed> {
        self.leave_output();
        self.writing = self.names.given(name);
        match self.made(name) {
            Ok(output) => {
                self.output = Some(output);
                Ok(())
            }
            Err(fault) => Err(self.write_failed(fault)),
        }
    }

    fn write(&mut self, piece: &[u8]) -> Result<usize, Failed> {
        let count = match &mut self.output {
            Some(output) => output.write(piece),
            None => Err(nothing_opened()),
        };
        match count {
            Ok(count) => {
                if count == 0 && !piece.is_empty() {
                    let _ = self.write_failed(self.on_output(nothing_taken()));
                }
                Ok(count)
            }
            Err(why) => Err(self.write_failed(self.on_output(why))),
        }
    }

    fn finish_out(&mut self) -> Result<(), Failed> {
        let ended = match self.output.take() {
            Some(output) => output.finish(self.rt),
            None => Err(nothing_opened()),
        };
        match ended {
            Ok(()) => Ok(()),
            Err(why) => Err(self.write_failed(self.on_output(why))),
        }
    }
}
