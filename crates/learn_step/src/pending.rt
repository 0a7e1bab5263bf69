//! The places that are still to be looked at.
//!
//! A conflict brings in hundreds of places, many of them more than once, and all are handed out from the greatest down. They
//! are less than the length of the trail, so each is a bit: to put one in writes it, a second time to no effect, and the
//! greatest is the lowest bit of the last word, since a word's lower bits stand for its greater places. No word is kept
//! behind the last one that has a bit, so that all places of an analysis cost one walk down the words.
ghost use Rattle.std.specs.Prelude.{◌≡◌, ℕ, ◌+◌, ◌-◌, ◌<◌, ◌≤◌, ◌^◌, [], true, false, length, max, slice_index_or, OnOk, OnErr};
ghost use Rattle.std.specs.Int.{bit_at};
ghost use Rattle.sat_base.specs.Members.{In};
ghost use Rattle.sat_base.specs.Work.{HasMore, TellsGreatest, TakesGreatest};
ghost use Rattle.learn_step.specs.Pending.{EndsInBit, AreSame};

use std::alloc::{AllocError, Global};
use std::marker::Model;

/// Places on a trail, each once, handed out from the greatest down. Contracts see a list, of which only the members matter.
#[derive(Drop)]
pub struct Pending {
    words: Vec<u64>,
}

impl Model for Pending {
    ghost use Rattle.std.specs.Prelude.{List, ℕ};
    ghost use Rattle.learn_step.specs.Pending.{pending, AreCut};

    ghost Value = { List ℕ };

    ghost view = { λ inside. pending inside.words.items };

    ghost invariant = { λ inside. AreCut inside.words.items };
}

impl Pending {
    /// No places. It takes no memory.
    pub fn new(alloc: Global) -> Pending
        ensures { result ≡ [] }
    {
        Pending {
            words: Vec::new(alloc),
        }
    }

    /// Puts a place in, which may be there already.
    pub fn insert(&mut self, place: u64) -> Result<(), AllocError>
        ensures ok { OnOk result (HasMore self.old self.new place) }
        ensures err { OnErr result (self.new ≡ self.old) }
    {
        let at = (place / 64) as usize;
        reach(&mut self.words, at)?;
        self.words[at] |= 1 << (63 - place % 64);
        Ok(())
    }

    /// Whether a place is in.
    pub fn has(&self, place: u64) -> bool
        ensures yes { result ≡ true → In place self.now }
        ensures no { result ≡ false → ¬ In place self.now }
    {
        let at = (place / 64) as usize;
        at < self.words.len() && (self.words[at] >> (63 - place % 64)) & 1 == 1
    }

    /// The greatest place.
    pub fn greatest(&self) -> Option<u64>
        ensures { TellsGreatest self.now result }
    {
        let count = self.words.len();
        if count == 0 {
            return None;
        }
        let lowest = lowest_bit(self.words[count - 1]);
        Some(64 * (count - 1) as u64 + (63 - lowest) as u64)
    }

    /// Takes the greatest place out.
    pub fn take_greatest(&mut self) -> Option<u64>
        ensures { TakesGreatest self.old self.new result }
    {
        let place = self.greatest()?;
        let at = (place / 64) as usize;
        let bit: u64 = 1 << (63 - place % 64);
        self.words[at] &= !bit;
        drop_zeros(&mut self.words);
        Some(place)
    }
}

// The place of the lowest bit that is set.
fn lowest_bit(word: u64) -> u32
    requires { 0 < word }
    ensures within { result < 64 }
    ensures has { bit_at word result ≡ 1 }
    ensures lowest { (k : ℕ) → k < result → bit_at word k ≡ 0 }
{
    word.trailing_zeros()
}

// Has a word at this place. Those that come are 0.
fn reach(words: &mut Vec<u64>, at: usize) -> Result<(), AllocError>
    requires { at < 2 ^ 58 }
    ensures reached { OnOk result (at < length words.new.items) }
    ensures length { OnOk result (length words.new.items ≡ max (length words.old.items) (at + 1)) }
    ensures same { OnOk result (AreSame words.old.items words.new.items) }
    ensures err { OnErr result (words.new.items ≡ words.old.items) }
{
    if at < words.len() {
        return Ok(());
    }
    let more = at + 1 - words.len();
    words.reserve(more)?;
    for _ in 0..more {
        words.push_reserved(0);
    }
    Ok(())
}

// Drops the last words as long as they are 0.
fn drop_zeros(words: &mut Vec<u64>)
    ensures same { AreSame words.old.items words.new.items }
    ensures ends { EndsInBit words.new.items }
    ensures length { length words.new.items ≤ length words.old.items }
{
    while ends_in_zero(words.as_slice()) {
        words.pop();
    }
}

// Whether there are words, and the last one is 0.
fn ends_in_zero(words: &[u64]) -> bool
    ensures yes { result ≡ true → (0 < length words.now) × (slice_index_or words.now (length words.now - 1) 0 ≡ 0) }
    ensures no { result ≡ false → EndsInBit words.now }
{
    let count = words.len();
    count > 0 && words[count - 1] == 0
}
