//! The problem that a case is about.
use crate::moves::Played;
use gcnf_text::{Read, read_gcnf};
use gm_base::Problem;
use lawful_fakes::Lacking;
use lawful_fakes::example::four_clauses;
use std::alloc::Global;
use trial_script::Step;

/// Holds the problem of a call.
pub fn hold_problem(alloc: Global, step: &Step<'_>, held: &mut Option<Problem>) -> Played {
    *held = Some(problem_of(alloc, step)?);
    Ok(())
}

fn problem_of(alloc: Global, step: &Step<'_>) -> Result<Problem, Lacking> {
    if step.word(0) == "four-clauses" {
        return Ok(four_clauses(alloc)?);
    }
    match read_gcnf(alloc, step.text()) {
        Read::Problem(problem) => Ok(problem),
        Read::Refused(_) => Err(Lacking::Evidence),
        Read::Memory => Err(Lacking::Memory),
    }
}
