//! Numbers in the order in which they were first added.
//!
//! A list has the order, and a tree beside it knows which numbers are there. What is kept grows with these numbers, and not
//! with how great they are.
ghost use Rattle.std.specs.Prelude.{◌≡◌, ◌≤◌, ◌∷◌, ◌++◌, [], length, take, if◌then◌else◌, OnOk, OnErr};
ghost use Rattle.gm_base.specs.Sets.{has};
ghost use Rattle.size_counter.specs.Names.{first_named};
ghost use Rattle.size_counter.specs.Sizes.{AreDistinct};

use std::alloc::{AllocError, Global};
use std::collections::BTreeSet;
use std::marker::Model;

/// Numbers, each once.
#[derive(Drop)]
pub(crate) struct Names {
    named: Vec<u32>,
    known: BTreeSet<u32>,
}

impl Model for Names {
    ghost use Rattle.std.specs.Prelude.{List, ℕ};
    ghost use Rattle.size_counter.specs.Known.{Knows};

    ghost Value = { List ℕ };

    ghost view = { λ names. names.named.items };

    ghost invariant = { λ names. Knows names.known names.named.items };
}

impl Names {
    pub(crate) fn new(alloc: Global) -> Names
        ensures { result ≡ [] }
    {
        Names {
            named: Vec::new(alloc),
            known: BTreeSet::new(alloc),
        }
    }

    pub(crate) fn len(&self) -> usize
        ensures { result ≡ length self.now }
    {
        self.named.len()
    }

    pub(crate) fn as_slice(&self) -> &[u32]
        ensures numbers { result.now ≡ self.now }
        ensures distinct { AreDistinct self.now }
    {
        let _known = &self.known;
        self.named.as_slice()
    }

    /// Adds a number, if it is not there.
    pub(crate) fn add(&mut self, number: u32) -> Result<(), AllocError>
        ensures ok { OnOk result (self.new ≡ (if has self.old number then self.old else self.old ++ number ∷ [])) }
        ensures err { OnErr result (self.new ≡ self.old) }
    {
        if !self.known.insert(number)? {
            return Ok(());
        }
        match self.named.push(number) {
            Ok(()) => Ok(()),
            Err(_) => {
                self.known.remove(&number);
                Err(AllocError)
            }
        }
    }

    /// Adds the numbers that are not there, or none if memory runs out.
    pub(crate) fn add_all(&mut self, numbers: &[u32]) -> Result<(), AllocError>
        ensures ok { OnOk result (self.new ≡ first_named (self.old ++ numbers.now)) }
        ensures err { OnErr result (self.new ≡ self.old) }
    {
        let before = self.as_slice().len();
        for number in numbers {
            match self.add(*number) {
                Ok(()) => {}
                Err(error) => {
                    self.cut(before);
                    return Err(error);
                }
            }
        }
        Ok(())
    }

    /// Takes out all but the first so many.
    pub(crate) fn cut(&mut self, len: usize)
        requires { len ≤ length self.old }
        ensures { self.new ≡ take len self.old }
    {
        while self.named.len() > len {
            if let Some(number) = self.named.pop() {
                self.known.remove(&number);
            }
        }
    }
}
