//! Two texts, each written to a file of its own.
ghost use Rattle.std.specs.Prelude.{◌≡◌, ◌≢◌, [], ◌∷◌, OnOk, OnErr};
ghost use Rattle.sat_base.specs.Members.{In};
ghost use Rattle.gm_ports.specs.Faults.{Rose};
ghost use Rattle.gm_ports.specs.FilesState.{TellsNothingNew, WritingLeaves};
ghost use Rattle.gm_io.specs.Writing.{AreCutOff, AreWritten, IsFront, IsWritten};

use crate::evidence_file::write_piece;
use gm_ports::{Failed, Files};

/// Writes the first text under its name, and behind it the second one under another name.
pub fn write_both<F: Files>(
    first: &str,
    first_text: &[u8],
    second: &str,
    second_text: &[u8],
    files: &mut F,
) -> Result<(), Failed>
    requires { first.now ≢ second.now }
    ensures whole { OnOk result (AreWritten first.now first_text.now second.now second_text.now (F.state files.new)) }
    ensures cut_off { OnErr result (AreCutOff first.now first_text.now second_text.now (F.state files.old) (F.state files.new)) }
    ensures cause { OnErr result (Rose (F.state files.old).write_faults (F.state files.new).write_faults) }
    ensures quiet { OnOk result ((F.state files.new).write_faults ≡ (F.state files.old).write_faults) }
    ensures leaves { WritingLeaves (λ name. In name (first.now ∷ second.now ∷ [])) (F.state files.old) (F.state files.new) }
{
    let Ok(()) = write_file(first, first_text, files) else {
        return Err(Failed);
    };
    match write_file(second, second_text, files) {
        Ok(()) => Ok(()),
        Err(Failed) => Err(Failed),
    }
}

/// Writes the text under this name.
fn write_file<F: Files>(name: &str, text: &[u8], files: &mut F) -> Result<(), Failed>
    ensures whole { OnOk result (IsWritten name.now text.now (F.state files.new)) }
    ensures front { OnErr result (IsFront text.now (F.state files.new)) }
    ensures cause { OnErr result (Rose (F.state files.old).write_faults (F.state files.new).write_faults) }
    ensures quiet { OnOk result ((F.state files.new).write_faults ≡ (F.state files.old).write_faults) }
    ensures leaves { WritingLeaves (λ n. n ≡ name.now) (F.state files.old) (F.state files.new) }
    ensures untold { TellsNothingNew (F.state files.old) (F.state files.new) }
{
    let Ok(()) = files.open_out(name) else {
        return Err(Failed);
    };
    let Ok(()) = write_piece(files, text) else {
        return Err(Failed);
    };
    match files.finish_out() {
        Ok(()) => Ok(()),
        Err(Failed) => Err(Failed),
    }
}
