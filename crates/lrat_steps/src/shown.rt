//! Which of the given clauses a log begins with.
//!
//! A log whose solver was given clauses that all logs share begins with them where they stand, and keeps but their number:
//! these are shown. A log that has no steps of its own yet shows the next of the given clauses where its solver is given just
//! that one. So a solver that is made beside the clauses, and is given them in their order, takes no memory for them in its log.
ghost use Rattle.std.specs.Prelude.{◌≡◌, ◌+◌, ◌<◌, ◌≤◌, ◌^◌, [], ◌∷◌, ◌++◌, Some, IsTrue, IsFalse, length, slice_get};
ghost use Rattle.lrat_steps.specs.Given.{given_in};

use crate::given::Given;
use sat_base::Lit;
use std::marker::Model;

/// The first of some given clauses.
#[derive(Drop)]
pub struct Shown {
    given: Option<Given>,
    count: u32,
}

impl Model for Shown {
    ghost use Rattle.std.specs.Prelude.{List, ℤ};

    ghost Value = { List (List ℤ) };

    ghost use Rattle.lrat_steps.specs.Given.{shown_of, AreThere};

    ghost view = { shown_of };

    ghost invariant = { AreThere };
}

impl Shown {
    /// None, and there are none to be shown.
    pub fn none() -> Shown
        ensures { result ≡ [] }
    {
        Shown {
            given: None,
            count: 0,
        }
    }

    /// None of these so far.
    pub fn none_of(given: Given) -> Shown
        ensures { result ≡ [] }
    {
        Shown {
            given: Some(given),
            count: 0,
        }
    }

    /// All of these.
    pub fn all_of(given: Given) -> Shown
        ensures { result ≡ given }
    {
        let count = given.len();
        Shown {
            given: Some(given),
            count,
        }
    }

    /// How many are shown.
    pub fn len(&self) -> u32
        ensures { result ≡ length self.now }
    {
        self.count
    }

    /// The clause at a place, from 0.
    pub fn lits(&self, at: u32) -> &[Lit]
        requires { at < length self.now }
        ensures { slice_get self.now at ≡ Some result.now }
    {
        match &self.given {
            Some(given) => given.lits(at),
            None => unreachable!(),
        }
    }

    /// Shows one more, if it is this one, and says whether it is.
    pub fn show(&mut self, lits: &[Lit]) -> bool
        ensures shown { IsTrue result → self.new ≡ self.old ++ lits.now ∷ [] }
        ensures other { IsFalse result → self.new ≡ self.old }
    {
        if !stands_at(&self.given, self.count, lits) {
            return false;
        }
        self.count += 1;
        true
    }
}

// Whether these literals are the clause at a place.
fn stands_at(given: &Option<Given>, at: u32, lits: &[Lit]) -> bool
    ensures is { IsTrue result → slice_get (given_in given.now) at ≡ Some lits.now }
    ensures few { IsTrue result → at + 1 < 2 ^ 32 }
{
    match given {
        Some(given) => at < given.len() && given.lits(at) == lits,
        None => false,
    }
}
