//! The gate of a run, at which two workers can meet.
//!
//! A gate that is shut holds the first job until another worker comes with one. So a lock round a whole job would be seen:
//! the second worker would not come while the first one is held. The first one looks for it so many times, and then goes on.
use gm_ports::Gate;
use std::sync::atomic::{AtomicU64, Ordering};
use std::thread;

/// How often the first worker looks for another one, at most.
const MOST_LOOKS: u64 = 1_000_000_000;

/// Lets everybody through at once, or holds the first job until another worker comes.
#[derive(Drop)]
pub struct Meeting {
    is_shut: bool,
    /// The number of the worker that came first, plus one; 0 where none came yet.
    first: AtomicU64,
    /// How often a worker other than the first came.
    others: AtomicU64,
    /// How often the first one looked in vain.
    missed: AtomicU64,
}

impl Meeting {
    pub fn new(is_shut: bool) -> Self {
        Meeting {
            is_shut,
            first: AtomicU64::new(0),
            others: AtomicU64::new(0),
            missed: AtomicU64::new(0),
        }
    }

    /// Whether another worker came while the first one was held; nothing where the gate is open.
    pub fn met(&self) -> Option<bool> {
        if !self.is_shut {
            return None;
        }
        let others = self.others.load(Ordering::SeqCst);
        let missed = self.missed.load(Ordering::SeqCst);
        Some(others > 0 && missed == 0)
    }

    /// Whether another worker comes while the first one looks.
    fn sees_another(&self) -> bool {
        for _ in 0..MOST_LOOKS {
            if self.others.load(Ordering::SeqCst) > 0 {
                return true;
            }
            thread::yield_now();
        }
        false
    }

    /// Holds the first job, and counts the jobs of other workers.
    fn hold(&self, name: u64) {
        let before = self
            .first
            .compare_exchange(0, name, Ordering::SeqCst, Ordering::SeqCst);
        match before {
            Ok(_) => {
                if !self.sees_another() {
                    self.missed.fetch_add(1, Ordering::SeqCst);
                }
            }
            Err(first) => {
                if first != name {
                    self.others.fetch_add(1, Ordering::SeqCst);
                }
            }
        }
    }
}

impl Gate for Meeting {
    fn pass(&self, worker: u32, _turn: u64) {
        if self.is_shut {
            self.hold(worker as u64 + 1);
        }
    }
}
