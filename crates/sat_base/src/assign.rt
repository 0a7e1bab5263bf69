//! Assignments.
//!
//! An assignment gives each variable a truth value. Contracts see the list of the values, that of variable 1 first.
//!
//! A search makes few assignments and its records keep many, so one is written by a builder, which has it alone, and is
//! shared once it is finished: a copy is one more reference to the same words. The values are bits of those words, and how
//! many there are stands beside the pointer, so that a prefix is a shorter length over what is shared. Behind that length
//! the words keep what was written: that they differ says nothing of the values. A prefix of what nobody else holds gives
//! back the blocks of words that it has no value in.
//!
//! Assignments of one search differ in few variables. So many words stand in blocks (`words.rt`), and what is made of an
//! assignment, or beside it, holds the blocks that both have alike once.
ghost use Rattle.std.specs.Prelude.{◌≡◌, ℕ, ◌<◌, ◌≤◌, ◌-◌, ◌*◌, ◌/◌, ◌%◌, ◌==◌, false, not, IfOk, length, replicate, slice_index_or, slice_set, take};
ghost use Rattle.std.specs.Arc.{arc_value};
ghost use Rattle.std.specs.Int.{bit_at};
ghost use Rattle.sat_base.specs.Literals.{AreLiterals, clause_true, literal_true, var_of};

use crate::bits::{read, with_bit, write};
use crate::lit::Lit;
use crate::words::Words;
use std::alloc::{AllocError, Global};
use std::marker::Model;
use std::sync::Arc;

/// An assignment that is being made.
#[derive(Debug, Drop)]
pub struct AssignBuilder {
    len: usize,
    words: Vec<u64>,
}

impl Model for AssignBuilder {
    ghost use Rattle.std.specs.Prelude.{List, Bool};
    ghost use Rattle.sat_base.specs.Bits.{truths, HasWords};

    ghost Value = { List Bool };

    ghost view = { λ builder. truths builder.len builder.words.items };

    ghost invariant = { λ builder. HasWords builder.len builder.words.items };
}

impl AssignBuilder {
    /// The assignment that makes each of so many variables false.
    pub fn all_false(alloc: Global, vars: u32) -> Result<AssignBuilder, AllocError>
        ensures { IfOk result (λ builder. builder ≡ replicate vars false) }
    {
        let len = vars as usize;
        let words = vec![in alloc; 0; len / 64 + 1]?;
        Ok(AssignBuilder { len, words })
    }

    /// How many variables it has.
    pub fn len(&self) -> usize
        ensures { result ≡ length self.now }
    {
        self.len
    }

    /// Gives a variable, counted from 1, its value.
    pub fn set(&mut self, var: u32, value: bool)
        requires not_zero { 0 < var }
        requires in_range { var ≤ length self.old }
        ensures value { self.new ≡ slice_set self.old (var - 1) value }
        ensures len { length self.new ≡ length self.old }
    {
        write(&mut self.words, (var - 1) as usize, value);
    }

    /// The assignment, which is shared from now on.
    pub fn finish(self, alloc: Global) -> Result<Assign, AllocError>
        ensures { IfOk result (λ assign. assign ≡ self) }
    {
        let AssignBuilder { len, words } = self;
        let words = Words::new(alloc, words)?;
        let words = Arc::new(alloc, words)?;
        Ok(Assign { len, words })
    }
}

/// A truth value for each variable.
#[derive(Debug, Drop)]
pub struct Assign {
    len: usize,
    words: Arc<Words, Global>,
}

impl Model for Assign {
    ghost use Rattle.std.specs.Prelude.{List, Bool};
    ghost use Rattle.std.specs.Arc.{arc_value};
    ghost use Rattle.sat_base.specs.Bits.{truths, HasWords};

    ghost Value = { List Bool };

    ghost view = { λ assign. truths assign.len (arc_value assign.words) };

    ghost invariant = { λ assign. HasWords assign.len (arc_value assign.words) };
}

impl Assign {
    /// One more reference to it. It takes no memory, and fails where there are 2^63 references already.
    pub fn copy(&self) -> Result<Assign, AllocError>
        ensures { IfOk result (λ copy. copy ≡ self.now) }
    {
        let words = Arc::try_clone(&self.words)?;
        Ok(Assign {
            len: self.len,
            words,
        })
    }

    /// How many variables it has.
    pub fn len(&self) -> usize
        ensures { result ≡ length self.now }
    {
        self.len
    }

    /// 64 of its values as the bits of a word, the lowest bit first: those of the variables behind the first `64 * at`.
    pub fn word(&self, at: usize) -> u64
        requires { 64 * at < length self.now }
        ensures { (i : ℕ) → i / 64 ≡ at → i < length self.now → slice_index_or self.now i false ≡ (bit_at result (i % 64) == 1) }
    {
        self.words.at(at)
    }

    /// The values of the first variables alone, of so many. Where nobody else holds the assignment, it gives back memory
    /// that only other variables need.
    pub fn prefix(self, vars: u32) -> Assign
        ensures { result ≡ take vars self }
    {
        let Assign { len, words } = self;
        let len = len.min(vars as usize);
        let words = first_words(words, len.div_ceil(64));
        Assign { len, words }
    }

    /// The same values but for that of one variable, counted from 1, which is the other one. It costs a copy of 64 words at
    /// most, and a pointer for each 64 others.
    pub fn flipped(&self, alloc: Global, var: u32) -> Result<Assign, AllocError>
        requires not_zero { 0 < var }
        requires in_range { var ≤ length self.now }
        ensures { IfOk result (λ flipped. flipped ≡ slice_set self.now (var - 1) (not (slice_index_or self.now (var - 1) false))) }
    {
        let value = self.value(var);
        let at = (var - 1) as usize;
        let word = with_bit(self.words.at(at / 64), at % 64, !value);
        let words = self.words.written(alloc, at / 64, word)?;
        let words = Arc::new(alloc, words)?;
        let len = self.len;
        Ok(Assign { len, words })
    }

    /// Shares with another assignment each block of words that both have alike. Its values stay; what it takes of memory
    /// shrinks.
    pub fn share(&mut self, like: &Assign)
        ensures { self.new ≡ self.old }
    {
        if self.words.is_small_like(&like.words) {
            if let Ok(words) = Arc::try_clone(&like.words) {
                self.words = words;
            }
        } else if let Some(words) = Arc::get_mut(&mut self.words) {
            words.share(&like.words);
        }
    }

    // The value of a variable.
    fn value(&self, var: u32) -> bool
        requires not_zero { 0 < var }
        requires in_range { var ≤ length self.now }
        ensures { result ≡ slice_index_or self.now (var - 1) false }
    {
        let at = (var - 1) as usize;
        read(self.words.at(at / 64), at % 64)
    }

    /// Whether the literal is true.
    pub fn makes_true(&self, lit: Lit) -> bool
        requires { var_of lit ≤ length self.now }
        ensures { result ≡ literal_true self.now lit }
    {
        let value = self.value(lit.var());
        if lit.number() > 0 { value } else { !value }
    }

    /// Whether one of the literals is true.
    pub fn makes_any_true(&self, lits: &[Lit]) -> bool
        requires { AreLiterals (length self.now) lits.now }
        ensures { result ≡ clause_true self.now lits.now }
    {
        for lit in lits {
            if self.makes_true(*lit) {
                return true;
            }
        }
        false
    }
}

// The words, without most of those behind the first so many where nobody else holds them.
fn first_words(words: Arc<Words, Global>, count: usize) -> Arc<Words, Global>
    requires { count ≤ length (arc_value words) }
    ensures same { take count (arc_value result) ≡ take count (arc_value words) }
    ensures enough { count ≤ length (arc_value result) }
{
    let mut words = words;
    if let Some(alone) = Arc::get_mut(&mut words) {
        alone.drop_behind(count);
    }
    words
}
