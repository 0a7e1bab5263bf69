//! The file that is listed, read and judged.
ghost use Rattle.std.specs.Prelude.{◌≡◌, IfOk, OnOk, OnErr, List, None, Option, Some, ℕ};
ghost use Rattle.gm_ports.specs.Faults.{Rose};
ghost use Rattle.gm_ports.specs.FilesState.{ReadingLeaves};
ghost use Rattle.gm_io.specs.Input.{OfFile, IsReadAs, TellsInput};

use focus_roles::narrow;
use gcnf_text::{Limit, MAX_BYTES, Offence, Read, read_gcnf};
use gm_base::{GroupSet, Problem};
use gm_ports::{Failed, Files, Reading, read_whole};
use std::alloc::{AllocError, Global};

/// The offence of a file that is too long, whatever it holds.
const TOO_LONG: Offence = Offence {
    number: 9,
    limit: Some(Limit::Bytes),
    line: 0,
    byte: 0,
};

/// Reads the file of this name and says of which problem it is, narrowed to the groups in focus, where some are given. The
/// file's bytes are let go here, and where it is narrowed so is the file's problem.
pub fn read_file<F: Files>(
    alloc: Global,
    name: &str,
    focus: Option<GroupSet>,
    files: &mut F,
) -> Result<Read, Failed>
    ensures told { IfOk result (λ read. OfFile ((F.state files.old).held name.now) (λ text. TellsInput focus text (F.state files.new).unread read)) }
    ensures cause { OnErr result (Rose (F.state files.old).read_faults (F.state files.new).read_faults) }
    ensures quiet { OnOk result ((F.state files.new).read_faults ≡ (F.state files.old).read_faults) }
    ensures leaves { ReadingLeaves (F.state files.old) (F.state files.new) }
{
    let read = read_problem(alloc, name, files)?;
    Ok(in_focus(alloc, read, focus))
}

/// What is read, narrowed to the groups in focus, where some are given.
fn in_focus(alloc: Global, read: Read, focus: Option<GroupSet>) -> Read
    ensures { (text : List ℕ) (unread : Option (List ℕ)) → TellsInput None text unread read → TellsInput focus text unread result }
{
    match focus {
        Some(groups) => narrow_read(alloc, read, &groups),
        None => read,
    }
}

/// What is read, narrowed to these groups.
fn narrow_read(alloc: Global, read: Read, focus: &GroupSet) -> Read
    ensures { (text : List ℕ) (unread : Option (List ℕ)) → TellsInput None text unread read → TellsInput (Some focus.now) text unread result }
{
    match read {
        Read::Problem(problem) => narrowed_to(alloc, &problem, focus),
        Read::Refused(offence) => Read::Refused(offence),
        Read::Memory => Read::Memory,
    }
}

/// The narrowed problem, as what is read.
fn narrowed_to(alloc: Global, problem: &Problem, focus: &GroupSet) -> Read
    ensures { (text : List ℕ) (unread : Option (List ℕ)) → IsReadAs None problem.now unread text → TellsInput (Some focus.now) text unread result }
{
    match narrow(alloc, problem, focus) {
        Ok(narrowed) => Read::Problem(narrowed),
        Err(AllocError) => Read::Memory,
    }
}

/// Reads the file of this name and says of which problem it is. Its bytes are let go here, before anything else is done.
fn read_problem<F: Files>(alloc: Global, name: &str, files: &mut F) -> Result<Read, Failed>
    ensures told { IfOk result (λ read. OfFile ((F.state files.old).held name.now) (λ text. TellsInput None text (F.state files.new).unread read)) }
    ensures cause { OnErr result (Rose (F.state files.old).read_faults (F.state files.new).read_faults) }
    ensures quiet { OnOk result ((F.state files.new).read_faults ≡ (F.state files.old).read_faults) }
    ensures leaves { ReadingLeaves (F.state files.old) (F.state files.new) }
{
    match read_whole(alloc, files, name, MAX_BYTES) {
        Reading::Whole(bytes) => Ok(read_gcnf(alloc, bytes.as_slice())),
        Reading::TooLong => Ok(Read::Refused(TOO_LONG)),
        Reading::Failed => Err(Failed),
        Reading::Memory => Ok(Read::Memory),
    }
}
