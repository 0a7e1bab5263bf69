//! Adding a text at the end.
ghost use Rattle.std.specs.Prelude.{◌≡◌, ◌+◌, ◌^◌, ◌<◌, ◌≤◌, ℕ, List, ◌++◌, ◌∷◌, [], Some, IfOk, OnOk, IfSome, length};
ghost use Rattle.gm_ports.specs.Faults.{HasCause};
ghost use Rattle.gm_ports.specs.DiskState.{TellsStill, AtEachMoment, written};
ghost use Rattle.disk_frames.specs.Frames.{HoldsWithOrWithout, IsSettled, piece_of};

use crate::FramedText;
use gm_ports::{Disk, Failed};

/// Puts a text behind the texts of a journal that ends at this gate, and answers the gate at which it ends now.
///
/// It is four device calls. After `Failed` the journal is to be closed: the text is there or not, and a crash may still
/// take it.
pub fn append<D: Disk>(disk: &mut D, gate: u64, text: &FramedText) -> Result<u64, Failed>
    requires { gate + 1 < 2 ^ 64 }
    ensures next { IfOk result (λ next. (next ≡ gate + 9 + length text.now) × (next + 1 < 2 ^ 64)) }
    ensures acknowledged { OnOk result ((texts : List (List ℕ)) → IsSettled (D.state disk.old) texts gate
        → IsSettled (D.state disk.new) (texts ++ text.now ∷ []) (gate + 9 + length text.now)) }
    ensures any_moment { (texts : List (List ℕ)) → IsSettled (D.state disk.old) texts gate
        → AtEachMoment (D.state disk.old) (D.state disk.new) (HoldsWithOrWithout texts text.now) }

    // It writes a frame's body and a closed gate behind the gate, and opens that gate, and nothing else.
    ensures written { OnOk result (IfSome (D.state disk.old).reads (λ bytes. gate < length bytes
        → (D.state disk.new).reads ≡ Some (written (written bytes (gate + 1) (piece_of text.now)) gate (1 ∷ [])))) }
    ensures tells { TellsStill (D.state disk.old) (D.state disk.new) }
    ensures name { (D.state disk.new).name ≡ (D.state disk.old).name }
    ensures cause { HasCause (D.state disk.old).faults (D.state disk.new).faults result }
{
    disk.write_at(gate + 1, text.piece())?;
    // Behind an open gate, whatever stood there would count: the gate is opened only over a frame that is on the disk.
    disk.sync()?;
    disk.write_at(gate, &[1])?;
    disk.sync()?;
    Ok(gate + 9 + text.len())
}
