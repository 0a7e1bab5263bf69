//! A disk.
//!
//! What a crash may leave of a disk is told by what it reads as, by the moment, and by what a crash at a moment since
//! may have left. Between two syncs a written range, and all past the old end, may hold any bytes; the other bytes stay;
//! after a sync a crash leaves what reads give. What may be left while a write runs is among what may be left behind it,
//! and while a sync runs among what could be left before, so the moments between calls stand for those within them too.
ghost use Rattle.std.specs.Prelude.{◌≡◌, ◌+◌, ◌^◌, ◌<◌, ◌≤◌, ℕ, List, Some, IfOk, OnOk, OnErr, IfSome, length, take, drop};
ghost use Rattle.gm_ports.specs.Faults.{HasCause};
ghost use Rattle.gm_ports.specs.DiskState.{DiskState, IsLawful, IsOpenAs, IsUnopened, Looks, Writes, TellsStill, Only, written};

use crate::Failed;

/// One disk at a time, opened under a name. Places and sizes are in bytes, from 0.
pub trait Disk {
    /// All that the object tells.
    ghost state: { Self → DiskState };

    /// Opens the disk of this name, which makes an empty one where there is none.
    fn open_disk(&mut self, name: &str) -> Result<(), Failed>
        ensures opened { OnOk result ((state self.new).reads ≡ (state self.old).held name.now) }
        ensures named { OnOk result (IsOpenAs (state self.new) name.now) }
        ensures unopened { OnErr result (IsUnopened (state self.old) (state self.new)) }
        ensures tells { TellsStill (state self.old) (state self.new) }
        ensures cause { HasCause (state self.old).faults (state self.new).faults result };

    /// How many bytes the disk has.
    fn len(&mut self) -> Result<u64, Failed>
        ensures length { IfOk result (λ n. IfSome (state self.old).reads (λ text. n ≡ length text)) }
        ensures looks { Looks (state self.old) (state self.new) }
        ensures cause { HasCause (state self.old).faults (state self.new).faults result };

    /// Reads some bytes from this place on to the front of `into`, which is not empty, and answers how many. 0 is taken
    /// as the end.
    fn read(&mut self, at: u64, into: &mut [u8]) -> Result<usize, Failed>
        requires { 0 < length into.old }
        ensures bound { IfOk result (λ n. n ≤ length into.new) }
        ensures bytes { IfOk result (λ n. IfSome (state self.old).reads (λ text. take n into.new ≡ take n (drop at text))) }
        ensures end { IfOk result (λ n. n ≡ 0 → IfSome (state self.old).reads (λ text. length text ≤ at)) }
        ensures looks { Looks (state self.old) (state self.new) }
        ensures cause { HasCause (state self.old).faults (state self.new).faults result };

    /// Writes the whole piece, from this place on. Until a sync, a crash may leave any bytes in the range.
    fn write_at(&mut self, at: u64, piece: &[u8]) -> Result<(), Failed>
        ensures bytes { OnOk result (IfSome (state self.old).reads (λ text. at ≤ length text → (state self.new).reads ≡ Some (written text at piece.now))) }
        ensures within { OnOk result (at + length piece.now < 2 ^ 64) }
        ensures writes { Writes at (length piece.now) (state self.old) (state self.new) }
        ensures cause { HasCause (state self.old).faults (state self.new).faults result };

    /// After it, a crash leaves what reads give.
    fn sync(&mut self) -> Result<(), Failed>
        ensures settled { OnOk result (IfSome (state self.old).reads (λ text. Only text (state self.new).may_leave)) }
        ensures looks { Looks (state self.old) (state self.new) }
        ensures cause { HasCause (state self.old).faults (state self.new).faults result };

    /// How many of its calls failed.
    fn faults(&self) -> u64
        ensures { result ≡ (state self.now).faults };

    /// What holds of a disk at all times.
    ghost lawful: { (disk : Self) → IsLawful (state disk) };
}
