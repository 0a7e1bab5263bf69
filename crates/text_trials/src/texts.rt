//! The player of texts: their tokens, the problems that are read from them and written to them, and reports.
//!
//! ```text
//! tokens             the tokens of the text below, each with its line and byte, up to the first end; `tokens 4`: so many
//! digits 0 -7        digits put behind one another, each with a blank behind it
//! read               the problem of the text below, or its offence
//! make 7 12          the problem of a seed and of a size from 1 to 1000
//! counts             how many variables, groups and clauses the problem has
//! clause 3           its clause at a place, from 0
//! write              its plain text
//! conflict 9 10      a set for the next report; `correction` likewise
//! report 12 complete the report of these sets, of 12 groups; or `partial`
//! ```
//!
//! An offence is told as `refused 9 clauses at 1:10`, with the limit where there is one, its line and its byte.
mod gcnf;
mod reports;
mod tokens;

use gcnf::{call_problem, make_problem, read_problem};
use gm_base::Problem;
use reports::{Lists, call_lists};
use std::alloc::{AllocError, Global};
use tokens::{show_digits, show_tokens};
use trial_script::{Player, Step};

/// Has a problem, and the sets for a report.
#[derive(Drop)]
pub struct TextsPlayer {
    problem: Option<Problem>,
    lists: Lists,
}

impl TextsPlayer {
    pub fn new(alloc: Global) -> TextsPlayer {
        TextsPlayer {
            problem: None,
            lists: Lists::new(alloc),
        }
    }
}

impl Player for TextsPlayer {
    fn begin(&mut self, alloc: Global) -> Result<(), AllocError> {
        self.problem = None;
        self.lists = Lists::new(alloc);
        Ok(())
    }

    fn call(
        &mut self,
        alloc: Global,
        step: &Step<'_>,
        out: &mut String,
    ) -> Result<bool, AllocError> {
        match step.word(0) {
            "tokens" => show_tokens(step, out),
            "digits" => show_digits(alloc, step, out),
            "read" => {
                self.problem = read_problem(alloc, step, out)?;
                Ok(true)
            }
            "make" => {
                self.problem = make_problem(alloc, step)?;
                Ok(self.problem.is_some())
            }
            "counts" | "clause" | "write" => call_problem(self.problem.as_ref(), alloc, step, out),
            _ => call_lists(&mut self.lists, alloc, step, out),
        }
    }
}
