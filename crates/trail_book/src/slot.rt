//! Slots: how the trail keeps an entry.
ghost use Rattle.std.specs.Prelude.{◌≡◌};
ghost use Rattle.trail_book.specs.Slots.{id_of, entry_of};

use crate::entry::Entry;
use sat_base::Lit;

/// A literal that is true, its level, and two ids, where 0 stands for none.
#[derive(Clone, Copy)]
pub(crate) struct Slot {
    pub lit: Lit,
    pub level: u32,
    pub reason: u64,
    pub unit: u64,
}

impl Slot {
    /// What callers see of it.
    pub fn entry(&self) -> Entry
        ensures { result ≡ entry_of self.now }
    {
        Entry {
            lit: self.lit,
            reason: id(self.reason),
            unit: id(self.unit),
        }
    }
}

/// An id, or none.
pub(crate) fn id(number: u64) -> Option<u64>
    ensures { result ≡ id_of number }
{
    if number == 0 { None } else { Some(number) }
}
