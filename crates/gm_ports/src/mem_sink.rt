//! A sink in memory.
ghost use Rattle.std.specs.Prelude.{◌≡◌, ℕ, ◌≤◌, ◌<◌, ◌++◌, ◌↔◌, ◌⊎◌, [], Some, IfOk, OnErr, IsErr, Contains, length, take};
ghost use Rattle.gm_ports.specs.Faults.{WriteHasCause};
ghost use Rattle.gm_ports.specs.MemSink.{taken_of};
ghost use Rattle.gm_ports.specs.Schedule.{next_count, after_call, after_fault};

use crate::schedule::Schedule;
use crate::{Calls, Failed, Sink};
use std::alloc::{AllocError, Global};
use std::marker::Model;

/// Keeps what it gets, up to its room, and fails at the calls that it was told to fail at.
#[derive(Drop)]
pub struct MemSink {
    got: Vec<u8>,
    per_write: usize,
    room: u64,
    writes: Schedule,
}

impl Model for MemSink {
    ghost use Rattle.std.specs.Prelude.{◌≤◌, ◌<◌, vec_len};
    ghost use Rattle.std.specs.Vec.{vec_capacity};
    ghost use Rattle.gm_ports.specs.MemSink.{MemSinkState};

    ghost Value = { MemSinkState };

    ghost view = { λ s. record { got = s.got.items; per_write = s.per_write; room = s.room; writes = s.writes } };

    ghost invariant = { λ s. (0 < s.per_write) × (vec_len s.got ≤ s.room) × (s.room ≤ vec_capacity s.got) };
}

impl MemSink {
    /// A sink that takes at most `per_write` bytes a call and `room` bytes in all. Its calls of the numbers in
    /// `failing` fail, the first one being 1. All memory that it needs is taken here.
    pub fn new(
        alloc: Global,
        per_write: usize,
        room: u64,
        failing: Calls,
    ) -> Result<MemSink, AllocError>
        requires { 0 < per_write }
        ensures { IfOk result (λ sink. sink
            ≡ record {
              got = [];
              per_write = per_write;
              room = room;
              writes = record { failing = failing; calls = 0; faults = 0 };
            }) }
    {
        Ok(MemSink {
            got: Vec::with_capacity(alloc, room as usize)?,
            per_write,
            room,
            writes: Schedule::new(failing),
        })
    }

    /// All that it got.
    pub fn got(&self) -> &[u8]
        ensures { result.now ≡ self.now.got }
    {
        self.got.as_slice()
    }

    /// How many of its calls failed.
    pub fn faults(&self) -> u64
        ensures { result ≡ self.now.writes.faults }
    {
        self.writes.faults()
    }
}

impl Sink for MemSink {
    ghost got = { λ s. Some s.got };

    ghost faults = { λ s. s.writes.faults };

    fn write(&mut self, piece: &[u8]) -> Result<usize, Failed>
        ensures fails { IsErr result ↔ (Contains self.old.writes.failing (next_count self.old.writes.calls)
            ⊎ ((0 < length piece.now) × (self.old.room ≤ length self.old.got))) }
        ensures takes { IfOk result (λ n. n ≡ taken_of self.old piece.now) }
        ensures ok { IfOk result (λ n. self.new
            ≡ record self.old {
              got = self.old.got ++ take n piece.now;
              writes = after_call self.old.writes;
            }) }
        ensures err { OnErr result (self.new ≡ record self.old { writes = after_fault self.old.writes }) }
        ensures cause { WriteHasCause self.old.writes.faults self.new.writes.faults piece.now result }
    {
        let left = (self.room - self.got.len() as u64) as usize;
        self.writes.begin(left > 0 || piece.is_empty())?;
        let count = piece.len().min(self.per_write).min(left);
        match self.got.extend_from_slice(&piece[..count]) {
            Ok(()) => Ok(count),
            Err(_) => unreachable!(),
        }
    }
}
