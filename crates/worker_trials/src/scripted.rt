//! Maps and records that a script has. A map of the fake's is described by lines of the text, wherever they stand:
//!
//! | line | what it says |
//! |---|---|
//! | `script 2 : 1 : 1 2 3 4` | the seeds that it hands out, in this order |
//! | `ending 6 : 1 3 2 4 5` | the derivation that each set is explored, one step: its id, and its hints |
//! | `repeating` | it hands out the first of its seeds that is open, each time |
//!
//! A record is one of the four clauses': `conflict 1 2`, `conflict 1 3 4`, `correction 1 : 00`, `correction 2 3 : 10` or
//! `correction 2 4 : 11`.
ghost use Rattle.std.specs.Prelude.{◌≡◌, IfOk};
ghost use Rattle.evidence_rec.specs.Records.{IsAcceptedAlone};
ghost use Rattle.evidence_rec.specs.Seeding.{new_engine};

use evidence_rec::Record;
use gm_base::{Derivation, GroupSet, Problem};
use lawful_fakes::example::{conflict, correction, derivation};
use lawful_fakes::{Lacking, ScriptedMap};
use sat_base::Row;
use std::alloc::{AllocError, Global};
use trial_script::Step;
use trial_sets::{has_word, number_at, numbers_in, pairs_in, parts_in, set_in};

/// The map that the lines describe.
pub fn scripted_map(alloc: Global, problem: &Problem, lines: &str) -> Result<ScriptedMap, Lacking>
    ensures { IfOk result (λ map. map ≡ new_engine problem.now.groups) }
{
    let seeds = seeds_of(alloc, problem, lines)?;
    let ending = ending_of(alloc, lines)?;
    let map = ScriptedMap::new(alloc, problem.groups(), seeds, ending);
    Ok(if lines.split('\n').any(|line| line == "repeating") {
        map.repeating()
    } else {
        map
    })
}

/// The first line that begins with this word, or an empty one.
fn line_with<'a>(alloc: Global, lines: &'a str, word: &str) -> Result<Step<'a>, AllocError> {
    Step::new(alloc, first_with(lines, word))
}

fn first_with<'a>(lines: &'a str, word: &str) -> &'a str {
    for line in lines.split('\n') {
        if line.split(' ').next().unwrap_or("") == word {
            return line;
        }
    }
    ""
}

fn seeds_of(alloc: Global, problem: &Problem, lines: &str) -> Result<Row<GroupSet>, Lacking> {
    let step = line_with(alloc, lines, "script")?;
    seeds_in(alloc, problem, &step)
}

fn seeds_in(alloc: Global, problem: &Problem, step: &Step<'_>) -> Result<Row<GroupSet>, Lacking> {
    let mut seeds = Row::new(alloc);
    for part in 0..parts_in(step) {
        seeds.push(set_in(alloc, step, part, problem.groups())?)?;
    }
    Ok(seeds)
}

fn ending_of(alloc: Global, lines: &str) -> Result<Derivation, Lacking> {
    let step = line_with(alloc, lines, "ending")?;
    let id = number_at(alloc, &step, 0, 0)?;
    let hints = ids_in(alloc, &step, 1)?;
    derivation(alloc, u64::from(id), &[], hints.as_slice())
}

fn ids_in(alloc: Global, step: &Step<'_>, part: usize) -> Result<Vec<u64>, Lacking> {
    let mut ids = Vec::new(alloc);
    for number in numbers_in(alloc, step, part)?.as_slice() {
        ids.push(u64::from(*number))?;
    }
    Ok(ids)
}

/// The record that a line ends with.
pub fn record_in(alloc: Global, problem: &Problem, step: &Step<'_>) -> Result<Record, Lacking>
    ensures { IfOk result (IsAcceptedAlone problem.now) }
{
    let numbers = numbers_in(alloc, step, 0)?;
    match numbers.as_slice() {
        // The first one is the worker's.
        [_, groups @ ..] => record_of(alloc, problem, groups, step),
        [] => Err(Lacking::Evidence),
    }
}

fn record_of(
    alloc: Global,
    problem: &Problem,
    groups: &[u32],
    step: &Step<'_>,
) -> Result<Record, Lacking>
    ensures { IfOk result (IsAcceptedAlone problem.now) }
{
    if !has_word(step, "conflict") {
        return correction_of(alloc, problem, groups, step);
    }
    match groups {
        [1, 2] => conflict(alloc, problem, true),
        [1, 3, 4] => conflict(alloc, problem, false),
        _ => Err(Lacking::Evidence),
    }
}

fn correction_of(
    alloc: Global,
    problem: &Problem,
    groups: &[u32],
    step: &Step<'_>,
) -> Result<Record, Lacking>
    ensures { IfOk result (IsAcceptedAlone problem.now) }
{
    let pairs = pairs_in(alloc, step, 1)?;
    match pairs.first() {
        Some(values) => correction(alloc, problem, groups, *values),
        None => Err(Lacking::Evidence),
    }
}
