//! Numbers of calls.
ghost use Rattle.std.specs.Prelude.{◌≡◌, ◌↔◌, [], IfOk, IsTrue, Contains};

use std::alloc::{AllocError, Global};
use std::marker::Model;

/// Numbers of calls, from 1, as a list in the order in which they were put in.
#[derive(Drop)]
pub struct Calls {
    numbers: Vec<u64>,
}

impl Model for Calls {
    ghost use Rattle.std.specs.Prelude.{ℕ, List};

    ghost Value = { List ℕ };

    ghost view = { λ c. c.numbers.items };
}

impl Calls {
    pub fn new(alloc: Global) -> Self
        ensures { result ≡ [] }
    {
        Calls {
            numbers: Vec::new(alloc),
        }
    }

    pub fn from_slice(alloc: Global, numbers: &[u64]) -> Result<Self, AllocError>
        ensures { IfOk result (λ calls. calls ≡ numbers.now) }
    {
        Ok(Calls {
            numbers: Vec::from_slice(alloc, numbers)?,
        })
    }

    pub(crate) fn contains(&self, call: u64) -> bool
        ensures { IsTrue result ↔ Contains self.now call }
    {
        self.numbers.contains(&call)
    }
}
