//! Evidence that is read and judged, for a checking or for a listing that goes on from it.
ghost use Rattle.std.specs.Prelude.{◌≡◌, ◌≢◌};
ghost use Rattle.gm_ports.specs.Faults.{Rose};
ghost use Rattle.gm_ports.specs.FilesState.{ReadingLeaves};
ghost use Rattle.gm_io.specs.Beginnings.{Judges};

use gm_audit::{Audited, audit};
use gm_base::Problem;
use gm_ports::{Files, Reading, read_whole};
use lrat_check::Why;
use std::alloc::{AllocError, Global};

/// How many bytes of evidence are read.
const MAX_EVIDENCE: u64 = 2_147_483_648;

/// What became of a file with evidence.
#[derive(Drop)]
pub enum Judged {
    Audited(Audited),
    Failed,
    Memory,
}

/// Reads the evidence of this name and judges it. Its bytes are let go here.
pub fn judge<F: Files>(alloc: Global, problem: &Problem, name: &str, files: &mut F) -> Judged
    ensures judges { Judges problem.now ((F.state files.old).held name.now) result }
    ensures cause { result ≡ Judged.Failed → Rose (F.state files.old).read_faults (F.state files.new).read_faults }
    ensures quiet { result ≢ Judged.Failed → (F.state files.new).read_faults ≡ (F.state files.old).read_faults }
    ensures leaves { ReadingLeaves (F.state files.old) (F.state files.new) }
{
    match read_whole(alloc, files, name, MAX_EVIDENCE) {
        Reading::Whole(bytes) => match audit(alloc, problem, bytes.as_slice()) {
            Ok(audited) => Judged::Audited(audited),
            Err(AllocError) => Judged::Memory,
        },
        Reading::TooLong => Judged::Audited(Audited::No {
            line: 0,
            why: Why::TooLong,
        }),
        Reading::Failed => Judged::Failed,
        Reading::Memory => Judged::Memory,
    }
}
