//! A tally: a book whose calls add up.
ghost use Rattle.std.specs.Prelude.{◌≡◌, [], IfOk};
ghost use Rattle.lock_tally.specs.Tallies.{added_sum, who_of, may_add, adds, IsLegal};

use std::alloc::{AllocError, Global};
use std::marker::Model;
use turn_lock::{Book, Seat};

/// One call: who added how much, and what the sum was then.
#[derive(Clone, Copy)]
pub struct Added {
    pub who: u32,
    pub amount: u16,
    pub reply: u64,
}

/// A seat at a lock round a tally.
pub type TallySeat = Seat<Added, u32>;

/// A sum with all that was added to it. It has room for 100 entries of each seat.
#[derive(Drop)]
pub struct Tally {
    seats: u32,
    sum: u64,
    entries: Vec<Added>,
}

impl Model for Tally {
    ghost use Rattle.std.specs.Prelude.{◌≡◌, ◌*◌, ◌≤◌, vec_capacity};
    ghost use Rattle.lock_tally.specs.Tallies.{TallyView, IsSumOf, IsLegal};

    ghost Value = { TallyView };

    ghost view = { λ t. record { seats = t.seats; entries = t.entries.items } };

    ghost invariant = { λ t. IsSumOf t.sum t.entries.items × IsLegal t.seats t.entries.items × (100 * t.seats ≤ vec_capacity t.entries) };
}

impl Tally {
    /// A tally to which nothing was added, for so many seats.
    pub fn new(alloc: Global, seats: u32) -> Result<Tally, AllocError>
        ensures seats { IfOk result (λ t. t.seats ≡ seats) }
        ensures empty { IfOk result (λ t. t.entries ≡ []) }
    {
        let entries = Vec::with_capacity(alloc, 100 * seats as usize)?;
        Ok(Tally {
            seats,
            sum: 0,
            entries,
        })
    }

    pub fn sum(&self) -> u64
        ensures { result ≡ added_sum self.now.entries }
    {
        self.sum
    }

    pub fn entries(&self) -> &[Added]
        ensures { result.now ≡ self.now.entries }
    {
        self.entries.as_slice()
    }
}

impl Book for Tally {
    type Op = u16;

    type Reply = u64;

    type Entry = Added;

    type Opening = u32;

    ghost opening = { λ t. t.seats };

    ghost history = { λ t. t.entries };

    ghost caller = { who_of };

    ghost legal = { IsLegal };

    ghost may = { may_add };

    ghost tells = { λ _. adds };

    fn apply(&mut self, who: u32, op: u16) -> u64 {
        let reply = self.sum + op as u64;
        self.sum = reply;
        self.entries.push_reserved(Added {
            who,
            amount: op,
            reply,
        });
        reply
    }
}
