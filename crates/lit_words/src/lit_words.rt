//! Literals as bits.
//!
//! Variable 1 has the lowest bit of each word. What two sets say of each other's literals is read off the words: of the
//! literals of a clause, those that are false are the positive ones whose bit the negative word of the true ones has, and
//! the other way round.
ghost use Rattle.std.specs.Prelude.{◌≡◌, ◌≢◌, ◌⊎◌, ◌↔◌, ℤ, ◌-◌, ◌<◌, neg_ℤ, IfSome, IfNone};
ghost use Rattle.sat_base.specs.Literals.{IsLiteral, AreLiterals, var_of};
ghost use Rattle.lit_words.specs.Words.{Has, AreWordsOf, IsOpen};

use crate::word::{both, lowest, with_bit, without, without_bit};
use sat_base::Lit;

/// A set of literals over the variables 1 to 64.
#[derive(Clone, Copy)]
pub struct LitWords {
    positive: u64,
    negative: u64,
}

fn bit_of(lit: Lit) -> u32
    requires { IsLiteral 64 lit }
    ensures bit { result ≡ var_of lit - 1 }
    ensures small { result < 64 }
{
    lit.var() - 1
}

impl LitWords {
    /// No literals.
    pub fn new() -> LitWords
        ensures { (x : ℤ) → ¬ Has result x }
    {
        LitWords {
            positive: 0,
            negative: 0,
        }
    }

    /// The literals of a clause.
    pub fn of(lits: &[Lit]) -> LitWords
        requires { AreLiterals 64 lits.now }
        ensures { AreWordsOf result lits.now }
    {
        let mut words = LitWords::new();
        for lit in lits {
            words.insert(*lit);
        }
        words
    }

    /// Puts a literal in, which may be there already.
    pub fn insert(&mut self, lit: Lit)
        requires { IsLiteral 64 lit }
        ensures { (x : ℤ) → Has self.new x ↔ ((x ≡ lit) ⊎ Has self.old x) }
    {
        let bit = bit_of(lit);
        if lit.is_positive() {
            self.positive = with_bit(self.positive, bit);
        } else {
            self.negative = with_bit(self.negative, bit);
        }
    }

    /// Takes a literal out, where it is there.
    pub fn remove(&mut self, lit: Lit)
        requires { IsLiteral 64 lit }
        ensures { (x : ℤ) → Has self.new x ↔ ((x ≢ lit) × Has self.old x) }
    {
        let bit = bit_of(lit);
        if lit.is_positive() {
            self.positive = without_bit(self.positive, bit);
        } else {
            self.negative = without_bit(self.negative, bit);
        }
    }

    /// A literal other than this one that is not false, where these are the true ones. One that is true is preferred.
    pub fn open(self, trues: LitWords, other: Lit) -> Option<Lit>
        requires { IsLiteral 64 other }
        ensures found { IfSome result (IsOpen self trues other) }
        ensures true_first { IfSome result (λ lit. (x : ℤ) → IsOpen self trues other x → Has trues x → Has trues lit) }
        ensures none { IfNone result ((x : ℤ) → Has self x → (x ≡ other) ⊎ Has trues (neg_ℤ x)) }
    {
        let mut open = self.not_false(trues);
        open.remove(other);
        match open.both(trues).first() {
            Some(lit) => Some(lit),
            None => open.first(),
        }
    }

    // Those whose negation is not among the true ones.
    fn not_false(self, trues: LitWords) -> LitWords
        ensures { (x : ℤ) → Has result x ↔ (Has self x × (¬ Has trues (neg_ℤ x))) }
    {
        LitWords {
            positive: without(self.positive, trues.negative),
            negative: without(self.negative, trues.positive),
        }
    }

    // Those that both have.
    fn both(self, other: LitWords) -> LitWords
        ensures { (x : ℤ) → Has result x ↔ (Has self x × Has other x) }
    {
        LitWords {
            positive: both(self.positive, other.positive),
            negative: both(self.negative, other.negative),
        }
    }

    // One of them: the positive one of the least variable, or else the negative one.
    fn first(self) -> Option<Lit>
        ensures some { IfSome result (Has self) }
        ensures none { IfNone result ((x : ℤ) → ¬ Has self x) }
    {
        if let Some(bit) = lowest(self.positive) {
            return Some(Lit::new((bit + 1) as i32));
        }
        let bit = lowest(self.negative)?;
        Some(Lit::new(-((bit + 1) as i32)))
    }
}
