//! Numbers for the clauses of a log.
//!
//! A log numbers its steps as they come. What is derived from some of them numbers its own clauses without gaps: the inputs,
//! which are the first steps of the log, keep their ids, and the steps that it took have the numbers behind the inputs, in their
//! order. So a number is found by halving among the ids that were taken, and nothing need be written anew.
ghost use Rattle.std.specs.Prelude.{◌≡◌, ℕ, ◌<◌, ◌≤◌, ◌^◌, All, length};
ghost use Rattle.sat_base.specs.Derivation.{max_id};
ghost use Rattle.sat_base.specs.Numbering.{Numbering, IsNumbering, Ascends, place_in, number_by};

use std::marker::Model;

/// How many inputs there are, and the ids of the steps that were taken.
#[derive(Drop)]
pub struct Numbering {
    inputs: u32,
    ids: Vec<u32>,
}

impl Model for Numbering {
    ghost use Rattle.sat_base.specs.Numbering.{Numbering, IsNumbering};

    ghost Value = { Numbering };

    ghost view = { λ by. record { inputs = by.inputs; ids = by.ids.items } };

    ghost invariant = { λ by. IsNumbering (record { inputs = by.inputs; ids = by.ids.items }) };
}

impl Numbering {
    pub fn new(inputs: u32, ids: Vec<u32>) -> Numbering
        requires { IsNumbering (record { inputs = inputs; ids = ids.items }) }
        ensures { result ≡ record { inputs = inputs; ids = ids.items } }
    {
        Numbering { inputs, ids }
    }

    /// The number of a clause of the log.
    pub(crate) fn number(&self, id: u64) -> u64
        ensures number { result ≡ number_by self.now id }
        ensures small { result ≤ max_id }
    {
        let inputs = u64::from(self.inputs);
        if id <= inputs {
            return id;
        }
        inputs + 1 + place_of(self.ids.as_slice(), id)
    }

    /// That all its numbers are small. It does nothing: the fact is what its callers want.
    pub(crate) fn is_small(&self)
        ensures { (id : ℕ) → number_by self.now id ≤ max_id }
    {
        let _ids = &self.ids;
    }
}

// The place of a number among ascending ones, or their count where it is none of them.
fn place_of(ids: &[u32], id: u64) -> u64
    requires ascends { Ascends ids.now }
    requires small { All (λ n. n < 2 ^ 32) ids.now }
    requires few { length ids.now < 2 ^ 32 }
    ensures place { result ≡ place_in ids.now id }
    ensures small { result < 2 ^ 32 }
{
    let Ok(narrow) = u32::try_from(id) else {
        return ids.len() as u64;
    };
    match ids.binary_search(&narrow) {
        Ok(at) => at as u64,
        Err(_) => ids.len() as u64,
    }
}
