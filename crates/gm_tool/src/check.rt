//! The command `check`: it reads a file, judges evidence about it, and writes the report of the sets that are shown.
ghost use Rattle.std.specs.Prelude.{Some, List, ℕ};
ghost use Rattle.gm_ports.specs.FilesState.{FilesState};
ghost use Rattle.gm_audit.specs.Audits.{AuditYes};
ghost use Rattle.gm_words.specs.Requests.{asked_by};
ghost use Rattle.gm_io.specs.Outside.{outside};
ghost use Rattle.gm_tool.specs.Checking.{shown_report};
ghost use Rattle.gm_tool.specs.Steps.{Reports};
ghost use Rattle.gm_tool.specs.Words.{EndsAs};

use evidence_rec::Records;
use gm_base::Problem;
use gm_io::{Beginning, Ending, begin, report_of};
use gm_ports::{Failed, Files, Sink, write_all};
use gm_words::{Checking, Request};
use std::alloc::Global;

/// Checks the evidence that is named about the file that is named.
pub fn check_file<F: Files, O: Sink>(
    alloc: Global,
    checking: Checking<'_>,
    files: &mut F,
    out: &mut O,
) -> Ending
    ensures { EndsAs (Some (asked_by (Request.Check checking.entry))) (outside (F.state files.old) (O.got out.old) (O.faults out.old))
        (outside (F.state files.new) (O.got out.new) (O.faults out.new)) result }
{
    let Checking {
        file,
        evidence,
        focus,
    } = checking;
    match begin(alloc, file, focus, Some(evidence), files) {
        Ok(
            Beginning {
                problem,
                complete,
                records,
            },
        ) => write_shown(alloc, &problem, complete, &records, out),
        Err(ending) => ending,
    }
}

/// Writes the report of the sets that evidence shows.
fn write_shown<O: Sink>(
    alloc: Global,
    problem: &Problem,
    complete: bool,
    records: &Records,
    out: &mut O,
) -> Ending
    requires { (text : List ℕ) × AuditYes problem.now text records.now complete }
    ensures { (files : FilesState) → Reports (shown_report problem.now complete records.now) (outside files (O.got out.old) (O.faults out.old))
        (outside files (O.got out.new) (O.faults out.new)) result }
{
    let groups = problem.groups();
    let Ok(text) = report_of(alloc, groups, complete, records.as_slice()) else {
        return Ending::Memory;
    };
    match write_all(out, text.as_slice()) {
        Ok(()) => Ending::Checked,
        Err(Failed) => Ending::CheckCutOff,
    }
}
