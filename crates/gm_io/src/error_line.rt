//! The lines on standard error.
ghost use Rattle.std.specs.Prelude.{◌≡◌};
ghost use Rattle.gm_io.specs.Endings.{line_at, line_of};
ghost use Rattle.gm_io.specs.Outside.{GetsLine};

use crate::ending::Ending;
use crate::writing::Stop;
use gm_ports::{Sink, write_all};

/// The line that comes with an ending; no bytes where none comes.
fn text_of(ending: &Ending) -> &[u8]
    ensures { result.now ≡ line_of ending.now }
{
    match ending {
        Ending::BadWords => b"gmus: bad command line\n",
        Ending::Refused(line)
        | Ending::EvidenceRefused(line)
        | Ending::Listed(line, _)
        | Ending::NoConflict(line)
        | Ending::NoExtension(line)
        | Ending::JournalRefused(line)
        | Ending::Dried(line, _) => line.as_slice(),
        Ending::ReadFault => b"gmus: read fault on input\n",
        Ending::EvidenceFault => b"gmus: read fault on evidence\n",
        Ending::JournalUnread => b"gmus: read fault on journal\n",
        Ending::JournalUnbegun | Ending::JournalCutOff(_) => b"gmus: write fault on journal\n",
        Ending::Checked | Ending::Exported => b"",
        Ending::Memory | Ending::EvidenceMemory(_) => b"gmus: out of memory\n",
        Ending::CutOff(_) | Ending::CheckCutOff => b"gmus: write fault on report\n",
        Ending::EvidenceCutOff(_) => b"gmus: write fault on evidence\n",
        Ending::ExportCutOff => b"gmus: write fault on export\n",
        Ending::DriedCutOff(stop, _) => text_at(*stop),
    }
}

/// The line that comes with a writing that was cut off.
fn text_at(stop: Stop) -> &'static [u8]
    ensures { result.now ≡ line_at stop }
{
    match stop {
        Stop::EvidenceFault => b"gmus: write fault on evidence\n",
        Stop::EvidenceMemory => b"gmus: out of memory\n",
        Stop::ReportFault => b"gmus: write fault on report\n",
    }
}

/// Writes the line that comes with an ending. A fault of this sink changes nothing.
pub fn write_error_line<E: Sink>(err: &mut E, ending: &Ending)
    ensures { GetsLine (E.got err.old) (E.got err.new) (E.faults err.old) (E.faults err.new) (line_of ending.now) }
{
    let _ = write_all(err, text_of(ending));
}
