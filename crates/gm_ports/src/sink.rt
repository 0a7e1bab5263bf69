//! Where text is written.
ghost use Rattle.std.specs.Prelude.{◌≡◌, ℕ, List, Option, ◌≤◌, IfOk, OnErr, length, take};
ghost use Rattle.gm_ports.specs.Faults.{WriteHasCause};
ghost use Rattle.gm_ports.specs.Told.{ToldAppends};

use crate::Failed;

/// Takes bytes in order.
pub trait Sink {
    /// All that it got, where it is told.
    ghost got: { Self → Option (List ℕ) };

    ghost faults: { Self → ℕ };

    /// Takes a front part of the piece, and answers how many bytes it took.
    fn write(&mut self, piece: &[u8]) -> Result<usize, Failed>
        ensures bound { IfOk result (λ n. n ≤ length piece.now) }
        ensures bytes { IfOk result (λ n. ToldAppends (got self.old) (got self.new) (take n piece.now)) }
        ensures failed { OnErr result (got self.new ≡ got self.old) }
        ensures cause { WriteHasCause (faults self.old) (faults self.new) piece.now result };
}
