//! Why a reading stops: in a line, and at a line of a text.
ghost use Rattle.std.specs.Prelude.{◌≡◌};
ghost use Rattle.evidence_text.specs.Cursors.{stop_on};
ghost use Rattle.evidence_text.specs.declared.offence.Stop.TheVariants as stop;
ghost use Rattle.evidence_text.specs.declared.offence.Halt.TheVariants as halt;

use lrat_check::Why;
use std::alloc::{AllocError, AllocFailed};

/// An offence of a text: its line, from 1, and what is wrong there.
#[derive(Clone, Copy, Debug, PartialEq, Eq)]
pub struct Offence {
    pub line: u64,
    pub why: Why,
}

/// Why a line is not read.
#[derive(Debug, Drop)]
pub(crate) enum Stop {
    Refused(Offence),
    Memory,
}

impl From<Offence> for Stop {
    ghost from_gives = { λ offence e. e ≡ stop.Refused offence };

    fn from(offence: Offence) -> Stop {
        Stop::Refused(offence)
    }
}

impl From<AllocError> for Stop {
    ghost from_gives = { λ _ e. e ≡ stop.Memory };

    fn from(_error: AllocError) -> Stop {
        Stop::Memory
    }
}

impl<T: Drop> From<AllocFailed<T>> for Stop {
    ghost from_gives = { λ _ e. e ≡ stop.Memory };

    fn from(_error: AllocFailed<T>) -> Stop {
        Stop::Memory
    }
}

/// Why the words of a line are not read.
#[derive(Debug, Drop)]
pub(crate) enum Halt {
    Refused(Why),
    Memory,
}

impl From<Why> for Halt {
    ghost from_gives = { λ why e. e ≡ halt.Refused why };

    fn from(why: Why) -> Halt {
        Halt::Refused(why)
    }
}

impl From<AllocError> for Halt {
    ghost from_gives = { λ _ e. e ≡ halt.Memory };

    fn from(_error: AllocError) -> Halt {
        Halt::Memory
    }
}

impl<T: Drop> From<AllocFailed<T>> for Halt {
    ghost from_gives = { λ _ e. e ≡ halt.Memory };

    fn from(_error: AllocFailed<T>) -> Halt {
        Halt::Memory
    }
}

/// An offence of the words of this line.
pub(crate) fn on_line(line: u64, halt: Halt) -> Stop
    ensures { result ≡ stop_on line halt }
{
    match halt {
        Halt::Refused(why) => Stop::Refused(Offence { line, why }),
        Halt::Memory => Stop::Memory,
    }
}

/// The same, where no memory is wanted.
pub(crate) fn refusal(line: u64, why: Why) -> Stop
    ensures { result ≡ stop.Refused (record { line = line; why = why }) }
{
    Stop::Refused(Offence { line, why })
}
