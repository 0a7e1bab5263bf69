//! A disk that is not there.
ghost use Rattle.std.specs.Prelude.{⊤, None, IsErr};
ghost use Rattle.gm_ports.specs.Faults.{HasCause};

use crate::{Disk, Failed};

/// It tells nothing, and may fail at each call: for what is to be run without a disk.
#[derive(Drop)]
pub struct NoDisk {
    faults: u64,
}

impl NoDisk {
    pub fn new() -> Self {
        NoDisk { faults: 0 }
    }

    fn fail<T>(&mut self) -> Result<T, Failed>
        ensures fails { IsErr result }
        ensures cause { HasCause self.old.faults self.new.faults result }
    {
        self.faults = self.faults.saturating_add(1);
        Err(Failed)
    }
}

impl Disk for NoDisk {
    ghost state = { λ d. record { reads = None; may_leave = λ c. ⊤; moment = 0; left_since = λ t c. ⊤; held = λ name. None; name = None; faults = d.faults } };

    ghost lawful = { λ d. record { as_read = tt; counts_now = λ t c le now. tt; only_now = λ c left. tt; ordered = λ t u c le left. tt; named = tt } };

    fn open_disk(&mut self, name: &str) -> Result<(), Failed> {
        self.fail()
    }

    fn len(&mut self) -> Result<u64, Failed> {
        self.fail()
    }

    fn read(&mut self, at: u64, into: &mut [u8]) -> Result<usize, Failed> {
        self.fail()
    }

    fn write_at(&mut self, at: u64, piece: &[u8]) -> Result<(), Failed> {
        self.fail()
    }

    fn sync(&mut self) -> Result<(), Failed> {
        self.fail()
    }

    fn faults(&self) -> u64 {
        self.faults
    }
}
