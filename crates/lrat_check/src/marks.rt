//! Marked literals.
//!
//! Each literal has a place in a table, where the round stands in which it was marked last. Those marked are the literals
//! with the round of now, so the next round begins with none, and nothing is undone. Where the rounds run out, after four
//! billion of them, the table is wiped once and they begin anew.
ghost use Rattle.std.specs.Prelude.{◌≡◌, ◌<◌, [], IfOk, length, true, set, EachIndex, slice_index};
ghost use Rattle.lrat_check.specs.Marks.{place_of, is_marked, HasPlaces, AreMarked};

use sat_base::Lit;
use std::alloc::{AllocError, Global};
use std::marker::Model;

/// A table in which literals are marked. Contracts see which places are.
#[derive(Drop)]
pub struct Marks {
    stamps: Vec<u32>,
    round: u32,
}

impl Model for Marks {
    ghost use Rattle.std.specs.Prelude.{ℕ, Bool, List, map, ◌==◌, ◌≤◌, All};

    ghost Value = { List Bool };

    ghost view = { λ m. map (λ s. s == m.round) m.stamps.items };

    ghost invariant = { λ m. All (λ s. s ≤ m.round) m.stamps.items };
}

impl Marks {
    /// A table for the literals over the variables 1 to `vars`, with none marked.
    pub fn new(alloc: Global, vars: u32) -> Result<Marks, AllocError>
        ensures places { IfOk result (HasPlaces vars) }
        ensures clear { IfOk result (λ marks. AreMarked marks []) }
    {
        Ok(Marks {
            stamps: vec![in alloc; 0u32; 2 * vars as usize + 2]?,
            round: 1,
        })
    }

    pub fn is_marked(&self, lit: Lit) -> bool
        requires { place_of lit < length self.now }
        ensures { result ≡ is_marked self.now lit }
    {
        self.stamps[place(lit)] == self.round
    }

    /// Marks a literal, which may be marked already.
    pub fn mark(&mut self, lit: Lit)
        requires { place_of lit < length self.old }
        ensures { self.new ≡ set self.old (place_of lit) true }
    {
        self.stamps[place(lit)] = self.round;
    }

    /// Takes all marks back.
    pub fn clear(&mut self)
        ensures len { length self.new ≡ length self.old }
        ensures clear { AreMarked self.new [] }
    {
        if self.round == u32::MAX {
            wipe(&mut self.stamps);
            self.round = 0;
        }
        self.round += 1;
    }
}

fn place(lit: Lit) -> usize
    ensures { result ≡ place_of lit }
{
    let twice = 2 * lit.var() as usize;
    if lit.is_positive() { twice } else { twice + 1 }
}

fn wipe(stamps: &mut [u32])
    ensures len { length stamps.new ≡ length stamps.old }
    ensures zero { EachIndex stamps.new (λ k. slice_index stamps.new k ≡ 0) }
{
    for stamp in stamps.iter_mut() {
        *stamp = 0;
    }
}
