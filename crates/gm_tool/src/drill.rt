//! The command `drill`: a listing of a case that two numbers make, of which only the counts are written.
ghost use Rattle.std.specs.Prelude.{◌≡◌, false, ◌<◌, ◌≤◌, [], Some, IfOk};
ghost use Rattle.gm_ports.specs.FilesState.{FilesState};
ghost use Rattle.gm_words.specs.Requests.{AreGoodJobs, asked_by};
ghost use Rattle.gm_words.specs.Reading.{greatest_size};
ghost use Rattle.gm_io.specs.Outside.{outside};
ghost use Rattle.gm_tool.specs.Drilling.{held_counts};
ghost use Rattle.gm_tool.specs.Prepared.{IsPrepared};
ghost use Rattle.gm_tool.specs.Steps.{Drills};
ghost use Rattle.gm_tool.specs.Words.{EndsAs};

use crate::enumeration::{greatest_bounds, list_sets};
use crate::prepared::Prepared;
use evidence_rec::Records;
use gcnf_text::make_case;
use gm_base::Problem;
use gm_io::{Bounds, Ending, counts_of, line_by};
use gm_ports::{Failed, Gate, Sink, write_all};
use gm_words::{Drilling, Request};
use map_core::Goal;
use std::alloc::{AllocError, Global};
use std::sync::Wait;
use std::thread::Threads;

/// Makes the case, enumerates its minimal sets, and writes how many they are.
pub fn drill_case<O: Sink, G: Gate, R: Threads + Wait + Sync>(
    rt: &R,
    alloc: Global,
    drilling: Drilling,
    out: &mut O,
    gate: &G,
) -> Ending
    requires jobs { AreGoodJobs drilling.jobs }
    requires some { 0 < drilling.size }
    requires few { drilling.size ≤ greatest_size }
    ensures { (files : FilesState) → EndsAs (Some (asked_by (Request.Drill drilling))) (outside files (O.got out.old) (O.faults out.old))
        (outside files (O.got out.new) (O.faults out.new)) result }
{
    let Ok(problem) = make_case(alloc, drilling.seed, drilling.size) else {
        return Ending::Memory;
    };
    let bounds = greatest_bounds(Goal::All, drilling.jobs);
    drill_problem(rt, alloc, &problem, bounds, out, gate)
}

/// Enumerates the minimal sets of a problem, and writes how many they are.
fn drill_problem<O: Sink, G: Gate, R: Threads + Wait + Sync>(
    rt: &R,
    alloc: Global,
    problem: &Problem,
    bounds: Bounds,
    out: &mut O,
    gate: &G,
) -> Ending
    requires jobs { AreGoodJobs bounds.jobs }
    requires no_journal { bounds.journal ≡ false }
    ensures { (files : FilesState) → Drills problem.now bounds (outside files (O.got out.old) (O.faults out.old))
        (outside files (O.got out.new) (O.faults out.new)) result }
{
    let Ok(prepared) = prepare(rt, alloc, problem, bounds, gate) else {
        return Ending::Memory;
    };
    let Prepared { line, text, left } = prepared;
    match write_all(out, text.as_slice()) {
        Ok(()) => Ending::Listed(line, left),
        Err(Failed) => Ending::CutOff(left),
    }
}

/// Enumerates, and makes the line of what was found.
fn prepare<G: Gate, R: Threads + Wait + Sync>(
    rt: &R,
    alloc: Global,
    problem: &Problem,
    bounds: Bounds,
    gate: &G,
) -> Result<Prepared, AllocError>
    requires jobs { AreGoodJobs bounds.jobs }
    requires no_journal { bounds.journal ≡ false }
    ensures { IfOk result (IsPrepared problem.now [] bounds (λ closing. held_counts problem.now closing.records)) }
{
    let left = list_sets(rt, alloc, problem, Records::new(alloc), bounds, gate)?;
    let line = line_by(alloc, bounds, left.closing.verdict)?;
    let text = counts_of(alloc, problem.groups(), left.closing.records.as_slice())?;
    Ok(Prepared { line, text, left })
}
