//! A file of the system as a disk. What it holds, and what a crash leaves of it, is not told.
ghost use Rattle.std.specs.Prelude.{None, ⊤, ◌+◌, ◌<◌, ◌≤◌, ◌-◌, ◌^◌, OnOk, length};
ghost use Rattle.gm_ports.specs.Faults.{Rose};

use gm_ports::{Disk, Failed};
use os_files::{Fault, Names, no_clash, nothing_opened, open_journal};
use std::alloc::Global;
use std::fs::File;
use std::io;
use std::marker::Model;
use std::os::unix::fs::FileExt;

/// A file of the system, with a count of the calls that did not work, and why the last of them did not. It is read and written at
/// places, and its position is not used.
#[derive(Drop)]
pub struct RealDisk<'a> {
    rt: &'a HostRuntime,
    alloc: Global,
    names: Names<'a>,
    file: Option<File>,
    /// The file's name, as it was given.
    name: &'a str,
    fault: Option<Fault<'a>>,
    faults: u64,
    ghost in_range: { faults ≤ 2 ^ 64 - 1 },
}

impl<'a> Model for RealDisk<'a> {
    ghost use Rattle.os_ports.specs.Counts.{Faults};

    ghost Value = { Faults };

    ghost view = { λ d. record { faults = d.faults } };
}

impl<'a> RealDisk<'a> {
    /// `names` are those of the command line.
    pub fn new(rt: &'a HostRuntime, alloc: Global, names: Names<'a>) -> Self {
        RealDisk {
            rt,
            alloc,
            names,
            file: None,
            name: "",
            fault: None,
            faults: 0,
        }
    }

    /// Why the last call that failed did not work.
    pub fn fault(&self) -> Option<Fault<'a>> {
        self.fault
    }

    /// Opens the journal of this name, if no name of the command line leads where another one does.
    fn opened(&self, name: &str) -> Result<File, Fault<'a>> {
        no_clash(self.rt, self.alloc, &self.names)?;
        match open_journal(self.rt, self.alloc, name) {
            Ok(file) => Ok(file),
            Err(why) => Err(self.on_file(why)),
        }
    }

    /// Writes the whole piece. A place that is past the greatest one is refused, before anything is written.
    fn written(&self, at: u64, piece: &[u8]) -> io::Result<()>
        ensures within { OnOk result (at + length piece.now < 2 ^ 64) }
        ensures bounded { self.now.faults ≤ 2 ^ 64 - 1 }
    {
        let Some(file) = &self.file else {
            return Err(nothing_opened());
        };
        if at.checked_add(piece.len() as u64).is_none() {
            return Err(io::Error::other("a place past the greatest one"));
        }
        file.write_all_at(piece, at)
    }

    fn on_file(&self, why: io::Error) -> Fault<'a> {
        let name = self.name;
        Fault { name, why }
    }

    fn failed(&mut self, fault: Fault<'a>) -> Failed
        ensures rose { Rose self.old.faults self.new.faults }
        ensures never_falls { self.old.faults ≤ self.new.faults }
        ensures bounded { self.new.faults ≤ 2 ^ 64 - 1 }
    {
        self.fault = Some(fault);
        self.faults = self.faults.saturating_add(1);
        Failed
    }
}

impl<'a> Disk for RealDisk<'a> {
    ghost state = { λ d. record { reads = None; may_leave = λ c. ⊤; moment = 0; left_since = λ t c. ⊤; held = λ name. None; name = None; faults = d.faults } };

    ghost lawful = { λ d. record { as_read = tt; counts_now = λ t c le now. tt; only_now = λ c left. tt; ordered = λ t u c le left. tt; named = tt } };

    fn open_disk(&mut self, name: &str) -> Result<(), Failed> {
        self.file = None;
        self.name = self.names.given(name);
        match self.opened(name) {
            Ok(file) => {
                self.file = Some(file);
                Ok(())
            }
            Err(fault) => Err(self.failed(fault)),
        }
    }

    fn len(&mut self) -> Result<u64, Failed> {
        let metadata = match &self.file {
            Some(file) => file.metadata(),
            None => Err(nothing_opened()),
        };
        match metadata {
            Ok(metadata) => Ok(metadata.len()),
            Err(why) => Err(self.failed(self.on_file(why))),
        }
    }

    fn read(&mut self, at: u64, into: &mut [u8]) -> Result<usize, Failed> {
        let count = match &self.file {
            Some(file) => file.read_at(into, at),
            None => Err(nothing_opened()),
        };
        match count {
            Ok(count) => Ok(count),
            Err(why) => Err(self.failed(self.on_file(why))),
        }
    }

    fn write_at(&mut self, at: u64, piece: &[u8]) -> Result<(), Failed> {
        match self.written(at, piece) {
            Ok(()) => Ok(()),
            Err(why) => Err(self.failed(self.on_file(why))),
        }
    }

    /// What was written reaches the device, and how long the file is.
    fn sync(&mut self) -> Result<(), Failed> {
        let synced = match &self.file {
            Some(file) => file.sync_data(),
            None => Err(nothing_opened()),
        };
        match synced {
            Ok(()) => Ok(()),
            Err(why) => Err(self.failed(self.on_file(why))),
        }
    }

    fn faults(&self) -> u64 {
        self.faults
    }
}
