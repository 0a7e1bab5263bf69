//! Oracles:
//!
//! | call | which oracle |
//! |---|---|
//! | `table 00 01 10 11` | the fake of the four clauses that knows these values and both conflicts, and answers with a conflict |
//! | `whole 00 01 10 11` | the same, but it answers that the set itself is unsatisfiable |
//! | `solver` | the learning solver's |
//! | `known table` | known sets around such a table, with all values |
//! | `known solver` | known sets around the solver's |
//! | `known table 208` | with another bound of what is remembered, in bytes |
//! | `known table 208 told` | the same, and it is told all records of the four clauses first |
//!
//! The lines of the text are asked of it: see `asking.rt`.
ghost use Rattle.std.specs.Prelude.{◌≡◌, IfOk};
ghost use Rattle.evidence_rec.specs.Asking.{IsHonestOver};
ghost use Rattle.evidence_rec.specs.Records.{IsAcceptedAlone};

use crate::asking::{Counted, talk};
use evidence_rec::Record;
use gm_base::Problem;
use group_oracle::GroupOracle;
use known_sets::KnownSets;
use lawful_fakes::Lacking;
use lawful_fakes::example::{conflict, correction, table_of};
use std::alloc::{AllocError, Global};
use trial_script::Step;
use trial_sets::{ALL, Played, has_word, pairs_in};

// Each with values that satisfy the other groups.
const CORRECTIONS: [(&[u32], (bool, bool)); 3] = [
    (&[1], (false, false)),
    (&[2, 3], (true, false)),
    (&[2, 4], (true, true)),
];

pub fn play_table(alloc: Global, problem: &Problem, step: &Step<'_>, out: &mut String) -> Played {
    let pairs = pairs_in(alloc, step, 0)?;
    let oracle = table_of(alloc, problem, pairs.as_slice(), step.word(0) == "whole")?;
    talk(alloc, oracle, problem, step, out)
}

pub fn play_solver(alloc: Global, problem: &Problem, step: &Step<'_>, out: &mut String) -> Played {
    let oracle = GroupOracle::new(alloc, problem)?;
    talk(alloc, oracle, problem, step, out)
}

pub fn play_known(alloc: Global, problem: &Problem, step: &Step<'_>, out: &mut String) -> Played {
    match step.word(1) {
        "table" => {
            let within = table_of(alloc, problem, &ALL, false)?;
            remember(alloc, within, problem, step, out)
        }
        "solver" => {
            let within = GroupOracle::new(alloc, problem)?;
            remember(alloc, within, problem, step, out)
        }
        _ => Err(Lacking::Evidence),
    }
}

/// Asks known sets around an oracle.
fn remember<O: Counted + Drop>(
    alloc: Global,
    within: O,
    problem: &Problem,
    step: &Step<'_>,
    out: &mut String,
) -> Played
    requires problem { (O.state within).problem ≡ problem.now }
    requires honest { IsHonestOver problem.now (O.state within).log }
{
    let mut known = known_around(alloc, within, problem, step)?;
    let told = if has_word(step, "told") {
        tell_all(alloc, &mut known, problem)
    } else {
        Ok(())
    };
    let talked = talk(alloc, known, problem, step, out);
    told?;
    talked
}

/// Known sets with the bound that the call names, or else with its own.
fn known_around<O: Counted + Drop>(
    alloc: Global,
    within: O,
    problem: &Problem,
    step: &Step<'_>,
) -> Result<KnownSets<O>, AllocError>
    requires problem { (O.state within).problem ≡ problem.now }
    requires honest { IsHonestOver problem.now (O.state within).log }
    ensures { IfOk result (λ known. known.problem ≡ problem.now) }
{
    match step.word(2).parse::<usize>() {
        Ok(most) => KnownSets::bounded(alloc, problem, within, most),
        Err(_) => KnownSets::new(alloc, problem, within),
    }
}

/// Tells it the conflicts {1, 2} and {1, 3, 4}, and the corrections {1}, {2, 3} and {2, 4}.
fn tell_all<O: Counted>(alloc: Global, known: &mut KnownSets<O>, problem: &Problem) -> Played
    requires { known.old.problem ≡ problem.now }
    ensures { known.new.problem ≡ problem.now }
{
    tell(alloc, known, problem, conflict(alloc, problem, true))?;
    tell(alloc, known, problem, conflict(alloc, problem, false))?;
    for (groups, values) in CORRECTIONS {
        tell(
            alloc,
            known,
            problem,
            correction(alloc, problem, groups, values),
        )?;
    }
    Ok(())
}

/// Tells it a record, where it was made.
fn tell<O: Counted>(
    alloc: Global,
    known: &mut KnownSets<O>,
    problem: &Problem,
    found: Result<Record, Lacking>,
) -> Played
    requires problem { known.old.problem ≡ problem.now }
    requires accepted { IfOk found (IsAcceptedAlone problem.now) }
    ensures { known.new.problem ≡ problem.now }
{
    match found {
        Ok(record) => {
            known.know(alloc, &record);
            Ok(())
        }
        Err(lacking) => Err(lacking),
    }
}
