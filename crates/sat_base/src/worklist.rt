//! Work lists.
//!
//! Numbers that wait to be handled, from the greatest down and each once: places on a trail that conflict analysis has
//! still to look at, ids that a derivation has still to reach. A number that is put in twice is handed out once, so
//! whoever puts one in need not look for it first: equal numbers leave the heap one after another, and all of them are
//! taken out together.
ghost use Rattle.std.specs.Prelude.{◌≡◌, ◌↔◌, [], IsTrue, OnOk, OnErr};
ghost use Rattle.std.specs.BinaryHeap.{heap_items, IsHeap};
ghost use Rattle.std.specs.Ordering.{nat_cmp};
ghost use Rattle.sat_base.specs.Members.{In};
ghost use Rattle.sat_base.specs.Work.{HasMore, TellsGreatest, TakesGreatest, IsUpperBoundOf, LosesCopies};

use std::alloc::{AllocError, Global};
use std::collections::BinaryHeap;
use std::marker::Model;

/// Numbers, handed out from the greatest down. Contracts see a list, of which only the members matter.
#[derive(Drop)]
pub struct WorkList {
    numbers: BinaryHeap<u64>,
}

impl Model for WorkList {
    ghost use Rattle.std.specs.Prelude.{List, ℕ};
    ghost use Rattle.std.specs.BinaryHeap.{heap_items, IsHeap};
    ghost use Rattle.std.specs.Ordering.{nat_cmp};

    ghost Value = { List ℕ };

    ghost view = { λ work. heap_items work.numbers };

    ghost invariant = { λ work. IsHeap nat_cmp (heap_items work.numbers) };
}

impl WorkList {
    /// No numbers. It takes no memory.
    pub fn new(alloc: Global) -> WorkList
        ensures { result ≡ [] }
    {
        WorkList {
            numbers: BinaryHeap::new(alloc),
        }
    }

    /// Puts a number in, which may be there already.
    pub fn insert(&mut self, number: u64) -> Result<(), AllocError>
        ensures ok { OnOk result (HasMore self.old self.new number) }
        ensures err { OnErr result (self.new ≡ self.old) }
    {
        self.numbers.push(number)?;
        Ok(())
    }

    /// The greatest number.
    pub fn greatest(&self) -> Option<u64>
        ensures { TellsGreatest self.now result }
    {
        let first = self.numbers.peek()?;
        Some(*first)
    }

    /// Takes the greatest number out.
    pub fn take_greatest(&mut self) -> Option<u64>
        ensures { TakesGreatest self.old self.new result }
    {
        let greatest = self.numbers.pop()?;
        drop_copies(&mut self.numbers, greatest);
        Some(greatest)
    }
}

// Takes out each copy of a number that no number is above.
fn drop_copies(numbers: &mut BinaryHeap<u64>, greatest: u64)
    requires heap { IsHeap nat_cmp (heap_items numbers.old) }
    requires bound { IsUpperBoundOf (heap_items numbers.old) greatest }
    ensures heap { IsHeap nat_cmp (heap_items numbers.new) }
    ensures copies { LosesCopies (heap_items numbers.old) (heap_items numbers.new) greatest }
{
    while has_copy(numbers, greatest) {
        numbers.pop();
    }
}

// Whether a number that no number is above is among them: then it is the first.
fn has_copy(numbers: &BinaryHeap<u64>, greatest: u64) -> bool
    requires heap { IsHeap nat_cmp (heap_items numbers.now) }
    requires bound { IsUpperBoundOf (heap_items numbers.now) greatest }
    ensures { IsTrue result ↔ In greatest (heap_items numbers.now) }
{
    match numbers.peek() {
        Some(first) => *first == greatest,
        None => false,
    }
}
