//! Where a search for a literal of a clause begins.
//!
//! A long clause is searched for a literal that is not false again and again, and what was false in the last search mostly
//! is so still. So a clause keeps the place at which the last search ended; the next one begins there, and goes once around
//! (Gent 2013). It is a hint: nothing that is said of a clause depends on it. A clause of three literals keeps none, since
//! two of them tell the third.
ghost use Rattle.std.specs.Prelude.{◌≡◌, ◌≤◌, length};
ghost use Rattle.clause_store.specs.Clauses.{clause_at, IsId};

use crate::store::Store;

// Of a clause of so many literals: the number by which two of three tell the third, or else a place.
fn third_or(third: u32, place: usize, count: u32) -> u32
    ensures { count ≡ 3 → result ≡ third }
{
    if count == 3 {
        third
    } else {
        place.min(count as usize) as u32
    }
}

impl Store {
    /// The place in a clause at which a search is to begin.
    pub fn position(&self, id: u64) -> usize
        requires { IsId self.now.clauses id }
        ensures within { result ≤ length (clause_at self.now.clauses id).lits }
    {
        let record = &self.records[(id - 1) as usize];
        record.third.min(record.shape.literals()) as usize
    }

    /// Has the next search in a clause begin at this place.
    pub fn set_position(&mut self, id: u64, place: usize)
        requires { IsId self.old.clauses id }
        ensures { self.new ≡ self.old }
    {
        let record = &mut self.records[(id - 1) as usize];
        record.third = third_or(record.third, place, record.shape.literals());
    }
}
