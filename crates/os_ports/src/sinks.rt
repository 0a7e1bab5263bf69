//! The standard streams of the system. What they got is not told.
ghost use Rattle.std.specs.Prelude.{None, ◌≤◌, ◌-◌, ◌^◌};

use gm_ports::{Failed, Sink};
use os_files::{Fault, nothing_taken};
use std::io;
use std::io::Print;
use std::marker::Model;

/// A standard stream with a count of the writes that did not work. Each write is one call of the system, so no bytes
/// wait after it.
#[derive(Drop)]
pub struct StreamSink<P: Print> {
    stream: P,
    /// What a person calls it.
    name: &'static str,
    /// Why the last write that failed did not work.
    why: Option<io::Error>,
    faults: u64,
    ghost in_range: { faults ≤ 2 ^ 64 - 1 },
}

impl<P: Print> Model for StreamSink<P> {
    ghost use Rattle.os_ports.specs.Counts.{Faults};

    ghost Value = { Faults };

    ghost view = { λ s. record { faults = s.faults } };
}

impl<P: Print> StreamSink<P> {
    pub fn new(stream: P, name: &'static str) -> Self {
        StreamSink {
            stream,
            name,
            why: None,
            faults: 0,
        }
    }

    /// Why the last write that failed did not work.
    pub fn fault(&self) -> Option<Fault<'static>> {
        let (name, why) = (self.name, self.why?);
        Some(Fault { name, why })
    }

    #[cfg(test)]
    pub fn faults(&self) -> u64 {
        self.faults
    }
}

impl<P: Print> Sink for StreamSink<P> {
    ghost got = { λ _. None };

    ghost faults = { λ s. s.faults };

    fn write(&mut self, piece: &[u8]) -> Result<usize, Failed> {
        match self.stream.write_some(piece) {
            Ok(count) => {
                if count == 0 && !piece.is_empty() {
                    self.why = Some(nothing_taken());
                    self.faults = self.faults.saturating_add(1);
                }
                Ok(count)
            }
            Err(why) => {
                self.why = Some(why);
                self.faults = self.faults.saturating_add(1);
                Err(Failed)
            }
        }
    }
}
