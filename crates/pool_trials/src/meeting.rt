//! An oracle that looks for another one.
ghost use Rattle.std.specs.Prelude.{◌≡◌};

use evidence_rec::{Asked, Oracle};
use gm_base::{Derivation, GroupSet, Purse};
use lawful_fakes::TableOracle;
use lrat_steps::Log;
use std::alloc::{AllocError, Global};
use std::marker::Model;
use std::sync::atomic::{AtomicU64, Ordering};
use std::thread;

/// How often an oracle looks, at most.
pub const MOST_LOOKS: u64 = 1_000_000_000;

/// Two flags, of which each says that its oracle's first question has begun, and how many oracles looked in vain.
#[derive(Drop)]
pub struct Meeting {
    pub first: AtomicU64,
    pub second: AtomicU64,
    pub missed: AtomicU64,
}

impl Meeting {
    pub fn new() -> Meeting {
        Meeting {
            first: AtomicU64::new(0),
            second: AtomicU64::new(0),
            missed: AtomicU64::new(0),
        }
    }

    // Says that the one is there, and looks until the other is.
    fn meet(&self, is_first: bool) {
        let (here, there) = if is_first {
            (&self.first, &self.second)
        } else {
            (&self.second, &self.first)
        };
        here.store(1, Ordering::SeqCst);
        for _ in 0..MOST_LOOKS {
            if there.load(Ordering::SeqCst) == 1 {
                return;
            }
            thread::yield_now();
        }
        self.missed.fetch_add(1, Ordering::SeqCst);
    }
}

/// Answers as the oracle within, and in its first question waits until the other one's has begun.
#[derive(Drop)]
pub struct MeetingOracle<'a> {
    oracle: TableOracle,
    meeting: &'a Meeting,
    is_first: bool,
    has_met: bool,
}

impl<'a> Model for MeetingOracle<'a> {
    ghost use Rattle.evidence_rec.specs.Asking.{OracleState};

    ghost Value = { OracleState };

    ghost view = { λ m. m.oracle };
}

impl<'a> MeetingOracle<'a> {
    pub fn new(oracle: TableOracle, meeting: &'a Meeting, is_first: bool) -> MeetingOracle<'a>
        ensures { result ≡ oracle }
    {
        MeetingOracle {
            oracle,
            meeting,
            is_first,
            has_met: false,
        }
    }
}

impl Oracle for MeetingOracle<'_> {
    ghost state = { λ m. m };

    fn ask(
        &mut self,
        alloc: Global,
        set: &GroupSet,
        turn: u64,
        purse: &mut Purse,
    ) -> Result<Asked, AllocError> {
        if !self.has_met {
            self.has_met = true;
            self.meeting.meet(self.is_first);
        }
        self.oracle.ask(alloc, set, turn, purse)
    }

    fn proof(&self, alloc: Global) -> Result<Derivation, AllocError> {
        self.oracle.proof(alloc)
    }

    fn into_log(self) -> Log {
        self.oracle.into_log()
    }
}
