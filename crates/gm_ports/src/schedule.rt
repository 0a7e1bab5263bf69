//! Which calls fail.
//!
//! An object in memory has one schedule for each kind of call. A call takes the next number, from 1, and fails where
//! its number is listed; it may fail for a reason of its own too. Each call that fails is counted.
ghost use Rattle.std.specs.Prelude.{◌≡◌, ◌↔◌, ◌⊎◌, false, IsErr, OnOk, OnErr};
ghost use Rattle.gm_ports.specs.Faults.{HasCause};
ghost use Rattle.gm_ports.specs.Schedule.{Fails, after_call, after_fault};

use crate::{Calls, Failed};
use std::marker::Model;

#[derive(Drop)]
pub(crate) struct Schedule {
    failing: Calls,
    calls: u64,
    faults: u64,
}

impl Model for Schedule {
    ghost use Rattle.std.specs.Prelude.{◌≤◌, ◌-◌, ◌^◌};
    ghost use Rattle.gm_ports.specs.Schedule.{ScheduleState};

    ghost Value = { ScheduleState };

    ghost view = { λ s. record { failing = s.failing; calls = s.calls; faults = s.faults } };

    ghost invariant = { λ s. s.faults ≤ 2 ^ 64 - 1 };
}

impl Schedule {
    pub(crate) fn new(failing: Calls) -> Self
        ensures { result ≡ record { failing = failing; calls = 0; faults = 0 } }
    {
        Schedule {
            failing,
            calls: 0,
            faults: 0,
        }
    }

    /// Begins a call, which fails where its number is listed and where it can't do its work. Then its fault is counted.
    pub(crate) fn begin(&mut self, can: bool) -> Result<(), Failed>
        ensures fails { IsErr result ↔ (Fails self.old ⊎ (can ≡ false)) }
        ensures ok { OnOk result (self.new ≡ after_call self.old) }
        ensures err { OnErr result (self.new ≡ after_fault self.old) }
        ensures cause { HasCause self.old.faults self.new.faults result }
    {
        self.calls = self.calls.saturating_add(1);
        if can && !self.failing.contains(self.calls) {
            return Ok(());
        }
        self.faults = self.faults.saturating_add(1);
        Err(Failed)
    }

    pub(crate) fn faults(&self) -> u64
        ensures { result ≡ self.now.faults }
    {
        self.faults
    }
}
