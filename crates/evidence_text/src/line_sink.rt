//! Where the lines of a text go.
//!
//! A text may be of any length, so it need not be held whole. Its lines are put one at a time behind the bytes that wait in
//! a buffer, and at each line the sink is told. It takes all that waits, or a front part, or leaves it there. So at each
//! moment what it took since it was given the first line is a front part of the text, and what waits comes next.
ghost use Rattle.std.specs.Prelude.{List, ℕ, [], IfErr, OnOk};
ghost use Rattle.evidence_text.specs.Putting.{IsPut, IsCut, AddsUp};

/// Takes a text out of the buffer into which its lines are put.
pub trait LineSink {
    /// Why it takes no more.
    type Error;

    /// It took these bytes from one moment to another.
    ghost took: { Self → Self → List ℕ → Type 0 };

    /// It took these bytes from one moment to another, and then no more, for this reason.
    ghost stopped: { Self → Self → Self.Error → List ℕ → Type 0 };

    /// A line was put behind what waits.
    fn line(&mut self, waiting: &mut Vec<u8>) -> Result<(), Self::Error>
        ensures ok { OnOk result (IsPut (took self.old self.new) waiting.old.items waiting.new.items []) }
        ensures err { IfErr result (λ why. IsCut (stopped self.old self.new why) waiting.old.items []) };

    /// What it takes adds up.
    ghost adds_up: { AddsUp took stopped };
}

/// Why a text was not put to its end.
#[derive(Clone, Copy, Debug, Drop, PartialEq, Eq)]
pub enum PutError<E> {
    /// There was no memory for the next line.
    Memory,
    /// The sink took no more.
    Sink(E),
}
