//! A disk of trials: what it holds it has under names, and it tells nothing, so little is to be proved of it.
//!
//! It keeps under which names it was opened, and for each what was there at its last sync, so that a crash can be played.
ghost use Rattle.std.specs.Prelude.{None, ⊤, ◌≡◌, ◌-◌, ◌^◌, ◌≤◌, IsErr};
ghost use Rattle.gm_ports.specs.Faults.{HasCause};

use gm_ports::{Disk, Failed};
use std::alloc::{AllocError, Global};

/// What is held under a name.
#[derive(Drop)]
struct Held {
    name: String,
    bytes: Vec<u8>,
    // As it was at its last sync.
    synced: Vec<u8>,
}

/// What a crash makes of what was written behind the last sync.
#[derive(Clone, Copy)]
pub enum Crash {
    /// Nothing of it is there.
    Lost,
    /// All of it is.
    Kept,
    /// Each byte that was written is another one, or an open gate.
    Torn(u8),
}

/// A disk that has what it holds under names. Its calls from one on fail.
#[derive(Drop)]
pub struct NamedDisk {
    alloc: Global,
    held: Vec<Held>,
    open: Option<usize>,
    opened: Vec<String>,
    first_failing: u64,
    calls: u64,
    faults: u64,
    ghost in_range: { faults ≤ 2 ^ 64 - 1 },
}

impl NamedDisk {
    /// It holds these bytes under a name, and its calls from this one on fail, the first one being 1.
    pub fn holding(
        alloc: Global,
        name: &str,
        bytes: &[u8],
        first_failing: u64,
    ) -> Result<Self, AllocError> {
        let mut disk = NamedDisk::empty(alloc, first_failing);
        disk.hold(name, bytes)?;
        Ok(disk)
    }

    fn empty(alloc: Global, first_failing: u64) -> Self {
        NamedDisk {
            alloc,
            held: Vec::new(alloc),
            open: None,
            opened: Vec::new(alloc),
            first_failing,
            calls: 0,
            faults: 0,
        }
    }

    /// Has it hold these bytes under a name.
    fn hold(&mut self, name: &str, bytes: &[u8]) -> Result<(), AllocError>
        ensures { self.new.faults ≡ self.old.faults }
    {
        self.held.push(Held {
            name: String::from_str(self.alloc, name)?,
            bytes: Vec::from_slice(self.alloc, bytes)?,
            synced: Vec::from_slice(self.alloc, bytes)?,
        })?;
        Ok(())
    }

    /// Under which names it was opened, in order.
    pub fn opened(&self) -> &[String] {
        self.opened.as_slice()
    }

    /// What a crash leaves under this name; nothing where it is not held.
    pub fn left(&self, name: &str, crash: Crash) -> Result<Vec<u8>, AllocError> {
        for held in &self.held {
            if held.name.as_str() == name {
                return held.left(self.alloc, crash);
            }
        }
        Ok(Vec::new(self.alloc))
    }

    fn fail<T>(&mut self) -> Result<T, Failed>
        ensures fails { IsErr result }
        ensures cause { HasCause self.old.faults self.new.faults result }
    {
        self.faults = self.faults.saturating_add(1);
        Err(Failed)
    }

    fn begin(&mut self) -> Result<(), Failed>
        ensures cause { HasCause self.old.faults self.new.faults result }
    {
        self.calls = self.calls.saturating_add(1);
        if self.calls < self.first_failing {
            return Ok(());
        }
        self.fail()
    }

    /// What was done without memory for it is a call that failed.
    fn done(&mut self, done: Result<(), AllocError>) -> Result<(), Failed>
        ensures cause { HasCause self.old.faults self.new.faults result }
    {
        match done {
            Ok(()) => Ok(()),
            Err(AllocError) => self.fail(),
        }
    }

    /// Opens what is held under the name, and keeps the name.
    fn turn_to(&mut self, name: &str) -> Result<(), AllocError>
        ensures { self.new.faults ≡ self.old.faults }
    {
        self.opened.push(String::from_str(self.alloc, name)?)?;
        if self.place_of(name).is_none() {
            self.hold(name, &[])?;
        }
        self.open = self.place_of(name);
        Ok(())
    }

    fn write(&mut self, at: u64, piece: &[u8]) -> Result<(), AllocError>
        ensures { self.new.faults ≡ self.old.faults }
    {
        match self.open.and_then(|place| self.held.get_mut(place)) {
            Some(held) => held.write(at as usize, piece),
            None => Err(AllocError),
        }
    }

    fn settle(&mut self) -> Result<(), AllocError>
        ensures { self.new.faults ≡ self.old.faults }
    {
        match self.open.and_then(|place| self.held.get_mut(place)) {
            Some(held) => held.settle(self.alloc),
            None => Err(AllocError),
        }
    }

    /// What is open; nothing where none is.
    fn bytes(&self) -> &[u8] {
        match self.open.and_then(|place| self.held.get(place)) {
            Some(held) => held.bytes.as_slice(),
            None => &[],
        }
    }

    fn place_of(&self, name: &str) -> Option<usize> {
        for at in 0..self.held.len() {
            if self.held[at].name.as_str() == name {
                return Some(at);
            }
        }
        None
    }
}

impl Held {
    fn left(&self, alloc: Global, crash: Crash) -> Result<Vec<u8>, AllocError> {
        match crash {
            Crash::Lost => Vec::from_slice(alloc, self.synced.as_slice()),
            Crash::Kept => Vec::from_slice(alloc, self.bytes.as_slice()),
            Crash::Torn(byte) => self.torn(alloc, byte),
        }
    }

    fn torn(&self, alloc: Global, byte: u8) -> Result<Vec<u8>, AllocError> {
        let mut left = Vec::from_slice(alloc, self.bytes.as_slice())?;
        for at in 0..left.len() {
            if self.synced.get(at) != Some(&left[at]) {
                left[at] = byte;
            }
        }
        Ok(left)
    }

    /// Writes the piece at a place that is not past the end.
    fn write(&mut self, at: usize, piece: &[u8]) -> Result<(), AllocError> {
        for (offset, byte) in piece.iter().enumerate() {
            let place = at.saturating_add(offset);
            match self.bytes.get_mut(place) {
                Some(old) => *old = *byte,
                None => self.bytes.push(*byte)?,
            }
        }
        Ok(())
    }

    fn settle(&mut self, alloc: Global) -> Result<(), AllocError> {
        self.synced = Vec::from_slice(alloc, self.bytes.as_slice())?;
        Ok(())
    }
}

impl Disk for NamedDisk {
    ghost state = { λ d. record { reads = None; may_leave = λ c. ⊤; moment = 0; left_since = λ t c. ⊤; held = λ name. None; name = None; faults = d.faults } };

    ghost lawful = { λ d. record { as_read = tt; counts_now = λ t c le now. tt; only_now = λ c left. tt; ordered = λ t u c le left. tt; named = tt } };

    fn open_disk(&mut self, name: &str) -> Result<(), Failed> {
        self.begin()?;
        let done = self.turn_to(name);
        self.done(done)
    }

    fn len(&mut self) -> Result<u64, Failed> {
        self.begin()?;
        Ok(self.bytes().len() as u64)
    }

    fn read(&mut self, at: u64, into: &mut [u8]) -> Result<usize, Failed> {
        self.begin()?;
        let text = self.bytes();
        let start = at.min(text.len() as u64) as usize;
        let count = into.len().min(text.len() - start);
        into[..count].copy_from_slice(&text[start..start + count]);
        Ok(count)
    }

    fn write_at(&mut self, at: u64, piece: &[u8]) -> Result<(), Failed> {
        if at.checked_add(piece.len() as u64).is_none() {
            return self.fail();
        }
        self.begin()?;
        let done = self.write(at, piece);
        self.done(done)
    }

    fn sync(&mut self) -> Result<(), Failed> {
        self.begin()?;
        let done = self.settle();
        self.done(done)
    }

    fn faults(&self) -> u64 {
        self.faults
    }
}
