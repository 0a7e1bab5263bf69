//! Literals.
//!
//! A literal is a variable or its negation, written as DIMACS writes it: the number of the variable, counted from 1, or
//! that number's negative. Contracts see that number.
ghost use Rattle.std.specs.Prelude.{◌≡◌, ◌<◌, ◌^◌, ◌↔◌, pos, neg_ℤ, IsTrue};
ghost use Rattle.sat_base.specs.Literals.{var_of};

use crate::row::Row;
use std::marker::Model;

/// A variable or its negation, as DIMACS writes it: from -2,147,483,647 to 2,147,483,647, and not 0.
#[derive(Clone, Copy, Debug, PartialEq, Eq)]
pub struct Lit {
    number: i32,
}

impl Model for Lit {
    ghost use Rattle.std.specs.Prelude.{ℤ, ◌<◌, ◌^◌};
    ghost use Rattle.sat_base.specs.Literals.{var_of};

    ghost Value = { ℤ };

    ghost view = { λ lit. lit.number };

    ghost invariant = { λ lit. (0 < var_of lit.number) × (var_of lit.number < 2 ^ 31) };

    ghost inverse = { λ number. record { number = number } };
}

impl Lit {
    pub fn new(number: i32) -> Lit
        requires not_zero { 0 < var_of number }
        requires in_range { var_of number < 2 ^ 31 }
        ensures { result ≡ number }
    {
        Lit { number }
    }

    pub fn number(self) -> i32
        ensures same { result ≡ self }
        ensures not_zero { 0 < var_of self }
        ensures in_range { var_of self < 2 ^ 31 }
    {
        self.number
    }

    /// Its variable, from 1 on.
    pub fn var(self) -> u32
        ensures same { result ≡ var_of self }
        ensures not_zero { 0 < result }
        ensures in_range { result < 2 ^ 31 }
    {
        self.number.unsigned_abs()
    }

    pub fn is_positive(self) -> bool
        ensures { IsTrue result ↔ (self ≡ pos (var_of self)) }
    {
        self.number > 0
    }

    pub fn negated(self) -> Lit
        ensures { result ≡ neg_ℤ self }
    {
        Lit {
            number: -self.number,
        }
    }
}

/// The literals of a clause, in their order, repeated ones included.
pub type Lits = Row<Lit>;
