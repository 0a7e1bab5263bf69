//! Going on with a journal that was read.
ghost use Rattle.std.specs.Prelude.{ℕ, List, OnOk};
ghost use Rattle.gm_ports.specs.Faults.{HasCause};
ghost use Rattle.disk_frames.specs.Frames.{IsSettled};
ghost use Rattle.disk_frames.specs.Salvage.{IsReadTo};
ghost use Rattle.disk_frames.specs.Starting.{IsMade, IsReadied};

use crate::End;
use gm_ports::{Disk, Failed};

/// Makes a disk ready for texts behind those that a salvage found on it. It reads nothing.
///
/// On a disk with a gate it only syncs, so a crash leaves nothing that none could leave at its entry. On an empty disk it
/// then writes a closed gate and syncs: from the first sync that answers Ok until it answers Ok itself, a crash may leave
/// any bytes.
pub fn start<D: Disk>(disk: &mut D, end: End) -> Result<(), Failed>
    ensures opened { OnOk result ((texts : List (List ℕ)) → IsReadTo (D.state disk.old) texts end.gate end.last
        → IsSettled (D.state disk.new) texts end.gate) }
    ensures made { OnOk result (IsMade (D.state disk.old) (D.state disk.new) end.gate end.last) }
    ensures readied { IsReadied D.state disk.old disk.new end.last }
    ensures cause { HasCause (D.state disk.old).faults (D.state disk.new).faults result }
{
    // What was read may still be pending.
    disk.sync()?;
    if end.last.is_some() {
        return Ok(());
    }
    disk.write_at(end.gate, &[0])?;
    disk.sync()
}
