//! One append, on the parts of a journal.
ghost use Rattle.std.specs.Prelude.{◌≡◌, ◌+◌, ◌^◌, ◌<◌, ◌++◌, false, ℕ, List};
ghost use Rattle.gm_ports.specs.DiskState.{TellsStill, AtEachMoment};
ghost use Rattle.disk_frames.specs.Frames.{IsSettled};
ghost use Rattle.gm_journal.specs.Histories.{IsUnasked, AppendHasCause};
ghost use Rattle.gm_journal.specs.Answering.{AnswersBy, IsHeldAfter, closed_after, texts_by, MayLeave, IsSmallText};

use crate::entry::Appended;
use disk_frames::{FramedText, append};
use evidence_rec::Held;
use evidence_text::{RecordText, TextParts};
use gm_ports::{Disk, Failed};

/// Answers one append. Nothing is written where the journal is closed, or has the set, or memory is wanting.
///
/// After a failure the set counts as held, which nobody asks about any more.
pub(crate) fn answer<D: Disk>(
    disk: &mut D,
    held: &mut Held,
    gate: &mut u64,
    is_closed: &mut bool,
    text: RecordText,
) -> Appended
    requires { gate.old + 1 < 2 ^ 64 }
    ensures answers { AnswersBy held.old is_closed.old text.found result }
    ensures held { is_closed.new ≡ false → IsHeldAfter text.found result held.old held.new }
    ensures closed { is_closed.new ≡ closed_after is_closed.old result }
    ensures gate { gate.new + 1 < 2 ^ 64 }
    ensures settled { (texts : List (List ℕ)) → IsSettled (D.state disk.old) texts gate.old → is_closed.new ≡ false
        → IsSettled (D.state disk.new) (texts ++ texts_by result text.text) gate.new }
    ensures any_moment { (texts : List (List ℕ)) → IsSettled (D.state disk.old) texts gate.old
        → AtEachMoment (D.state disk.old) (D.state disk.new) (MayLeave result texts text.text) }
    ensures small { IsSmallText text.text result }
    ensures untouched { IsUnasked result → disk.new ≡ disk.old }
    ensures tells { TellsStill (D.state disk.old) (D.state disk.new) }
    ensures name { (D.state disk.new).name ≡ (D.state disk.old).name }
    ensures cause { AppendHasCause (D.state disk.old).faults (D.state disk.new).faults result }
{
    if *is_closed {
        return Appended::Closed;
    }
    if held.has(text.kind(), text.set()) {
        return Appended::Already;
    }
    let TextParts { kind, set, buffer } = text.into_parts();
    if held.add(kind, set).is_err() {
        return Appended::Memory;
    }
    let text = FramedText::from_buffer(buffer);
    match append(disk, *gate, &text) {
        Ok(next) => {
            *gate = next;
            Appended::Ok
        }
        Err(Failed) => {
            *is_closed = true;
            Appended::Failed(disk.faults())
        }
    }
}
