//! Sets of literals: which literal of a clause is open, beside another one.
//!
//! ```text
//! clause 1 -2 64     the literals of the clause
//! trues -64          the literals that are true, at first none
//! insert 2           one more is true
//! remove 2           it is no more
//! leave_out -3       the clause has this literal no more
//! open 1             a literal of the clause but this one, which is not false
//! ```
ghost use Rattle.sat_base.specs.Literals.{IsLiteral};

use lit_words::LitWords;
use sat_base::Lit;
use std::alloc::{AllocError, Global};
use trial_lits::{lit_at, lits_at, tell_lit};
use trial_script::{Player, Step, known};

/// A clause, and the literals that are true.
#[derive(Drop)]
pub struct WordsPlayer {
    clause: LitWords,
    trues: LitWords,
}

impl WordsPlayer {
    pub fn new() -> WordsPlayer {
        WordsPlayer {
            clause: LitWords::new(),
            trues: LitWords::new(),
        }
    }

    // Puts a literal in, or takes one out.
    fn change(&mut self, verb: &str, lit: Lit) -> bool
        requires { IsLiteral 64 lit }
    {
        match verb {
            "insert" => self.trues.insert(lit),
            "remove" => self.trues.remove(lit),
            "leave_out" => self.clause.remove(lit),
            _ => return false,
        }
        true
    }

    fn open(&self, step: &Step<'_>, out: &mut String) -> Result<bool, AllocError> {
        match lit_at(step, 1, 64) {
            Some(lit) => known(tell_lit(out, "open", self.clause.open(self.trues, lit))),
            None => Ok(false),
        }
    }
}

/// The literals of a call as a set.
pub fn words_at(
    alloc: Global,
    step: &Step<'_>,
    from: usize,
) -> Result<Option<LitWords>, AllocError> {
    match lits_at(alloc, step, from, 64)? {
        Some(lits) => Ok(Some(LitWords::of(&lits))),
        None => Ok(None),
    }
}

// Puts a set in the place of one, where it could be read.
fn hold(
    held: &mut LitWords,
    words: Result<Option<LitWords>, AllocError>,
) -> Result<bool, AllocError> {
    match words? {
        Some(words) => {
            *held = words;
            Ok(true)
        }
        None => Ok(false),
    }
}

impl Player for WordsPlayer {
    fn begin(&mut self, _alloc: Global) -> Result<(), AllocError> {
        *self = WordsPlayer::new();
        Ok(())
    }

    fn call(
        &mut self,
        alloc: Global,
        step: &Step<'_>,
        out: &mut String,
    ) -> Result<bool, AllocError> {
        match step.word(0) {
            "clause" => hold(&mut self.clause, words_at(alloc, step, 1)),
            "trues" => hold(&mut self.trues, words_at(alloc, step, 1)),
            "open" => self.open(step, out),
            verb => match lit_at(step, 1, 64) {
                Some(lit) => Ok(self.change(verb, lit)),
                None => Ok(false),
            },
        }
    }
}
