//! Named files.
//!
//! One file at a time is opened for reading and one for writing. An object tells what its files hold or it does not,
//! as real files do not; where it tells, what a call gives and takes is stated byte by byte. `state` has all that is
//! told, and its two counts of faults are always told.
ghost use Rattle.std.specs.Prelude.{◌≡◌, ℕ, List, ◌≤◌, ◌<◌, IfOk, OnOk, OnErr, IfSome, IsErr, length, take, Some, None, []};
ghost use Rattle.gm_ports.specs.Faults.{HasCause, WriteHasCause};
ghost use Rattle.gm_ports.specs.FilesState.{FilesState, ReadingLeaves, WritingLeaves, HoldsWhatIsWritten, StaysAsTold, TellsNothingNew, told_bytes};
ghost use Rattle.gm_ports.specs.Told.{TellsAsBefore, ToldConsumes, ToldAppends, IsEmptyWhereTold};

use crate::Failed;

/// Reads one named file at a time, and writes one.
pub trait Files {
    /// All that the object tells.
    ghost state: { Self → FilesState };

    /// Opens a file for reading, from its first byte on.
    fn open_in(&mut self, name: &str) -> Result<(), Failed>
        ensures opened { OnOk result ((state self.new).unread ≡ told_bytes ((state self.old).held name.now)) }
        ensures missing { (state self.old).held name.now ≡ Some None → IsErr result }
        ensures failed { OnErr result (TellsAsBefore (state self.old).unread (state self.new).unread) }
        ensures cause { HasCause (state self.old).read_faults (state self.new).read_faults result }
        ensures leaves { ReadingLeaves (state self.old) (state self.new) };

    /// Reads some bytes of the opened input to the front of `into`, and answers how many; 0 is the end of the file.
    fn read(&mut self, into: &mut [u8]) -> Result<usize, Failed>
        requires { 0 < length into.old }
        ensures bound { IfOk result (λ n. n ≤ length into.new) }
        ensures bytes { IfOk result (λ n. ToldConsumes (state self.old).unread (state self.new).unread (take n into.new)) }
        ensures end { IfOk result (λ n. n ≡ 0 → IsEmptyWhereTold (state self.new).unread) }
        ensures failed { OnErr result ((state self.new).unread ≡ (state self.old).unread) }
        ensures cause { HasCause (state self.old).read_faults (state self.new).read_faults result }
        ensures leaves { ReadingLeaves (state self.old) (state self.new) };

    /// Opens an output under this name, which makes the file or empties it.
    fn open_out(&mut self, name: &str) -> Result<(), Failed>
        ensures opened { OnOk result (IfSome (state self.new).output (λ output. output ≡ Some name.now)) }
        ensures made { OnOk result (IfSome ((state self.new).held name.now) (λ file. file ≡ Some [])) }
        ensures failed { OnErr result (IfSome (state self.new).output (λ output. output ≡ None)) }
        ensures written { IsEmptyWhereTold (state self.new).written }
        ensures holds { HoldsWhatIsWritten (state self.new) }
        ensures cause { HasCause (state self.old).write_faults (state self.new).write_faults result }
        ensures untold { TellsNothingNew (state self.old) (state self.new) }
        ensures leaves { WritingLeaves (λ n. n ≡ name.now) (state self.old) (state self.new) };

    /// Writes a front part of the piece to the opened output, and answers how many bytes it took.
    fn write(&mut self, piece: &[u8]) -> Result<usize, Failed>
        ensures bound { IfOk result (λ n. n ≤ length piece.now) }
        ensures bytes { IfOk result (λ n. ToldAppends (state self.old).written (state self.new).written (take n piece.now)) }
        ensures failed { OnErr result ((state self.new).written ≡ (state self.old).written) }
        ensures output { StaysAsTold (state self.old).output (state self.new).output }
        ensures holds { HoldsWhatIsWritten (state self.new) }
        ensures cause { WriteHasCause (state self.old).write_faults (state self.new).write_faults piece.now result }
        ensures untold { TellsNothingNew (state self.old) (state self.new) }
        ensures leaves { WritingLeaves (λ n. (state self.old).output ≡ Some (Some n)) (state self.old) (state self.new) };

    /// Ends the opened output. What was written to it stays held.
    fn finish_out(&mut self) -> Result<(), Failed>
        ensures closed { IfSome (state self.new).output (λ output. output ≡ None) }
        ensures written { (state self.new).written ≡ (state self.old).written }
        ensures names { (state self.new).held ≡ (state self.old).held }
        ensures holds { HoldsWhatIsWritten (state self.new) }
        ensures cause { HasCause (state self.old).write_faults (state self.new).write_faults result }
        ensures untold { TellsNothingNew (state self.old) (state self.new) }
        ensures leaves { WritingLeaves (λ _. ⊥) (state self.old) (state self.new) };
}
