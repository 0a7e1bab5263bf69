//! The reading of a whole text.
ghost use Rattle.gcnf_text.specs.Read.{Tells};
ghost use Rattle.gcnf_text.specs.Steps.{IsRead};

use crate::clause::read_clauses;
use crate::header::read_header;
use crate::offence::{Limit, Offence, Stop, TOO_LARGE};
use gm_base::Problem;
use std::alloc::Global;
use token_text::Tokens;

/// The most bytes that a text may have.
pub const MAX_BYTES: u64 = 134_217_728;

/// What a text was read as.
#[derive(Drop)]
pub enum Read {
    Problem(Problem),
    Refused(Offence),
    Memory,
}

/// Reads a problem, or finds the first offence of the text.
pub fn read_gcnf(alloc: Global, text: &[u8]) -> Read
    ensures { Tells text.now result }
{
    match read_problem(alloc, text) {
        Ok(problem) => Read::Problem(problem),
        Err(Stop::Refused(offence)) => Read::Refused(offence),
        Err(Stop::Memory) => Read::Memory,
    }
}

/// The problem of the text.
fn read_problem(alloc: Global, text: &[u8]) -> Result<Problem, Stop>
    ensures { IsRead text.now result }
{
    if text.len() as u64 > MAX_BYTES {
        return Err(Stop::Refused(Offence {
            number: TOO_LARGE,
            limit: Some(Limit::Bytes),
            line: 0,
            byte: 0,
        }));
    }
    let mut tokens = Tokens::new(text);
    let header = read_header(&mut tokens)?;
    let clauses = read_clauses(alloc, &mut tokens, header)?;
    let problem = Problem::new(alloc, header.vars, header.groups, clauses)?;
    Ok(problem)
}
