//! Analyses: the clause at hand, and the hints by which it follows.
//!
//! Conflict analysis begins with a clause that is false, and replaces one literal after another by the other literals of
//! the clause that forced its negation (resolution; GRASP: Marques-Silva and Sakallah 1999). The clause at hand is kept
//! in two parts: the literals that stay, and those still to be looked at, as the places on the trail of the values that
//! make them false. Places are handed out from the greatest down. All other literals of the clause that forced a value
//! are false at places below it, so that what is brought in is looked at later, and nothing is looked at twice. So an
//! analysis costs what the clauses that it looks at cost, whatever the length of the trail.
//!
//! The clauses were used from the last to the first of a propagation that finds the clause at hand false: turned, their
//! ids are the hints.
ghost use Rattle.std.specs.Prelude.{◌≡◌, ◌<◌, ◌≤◌, false, List, [], ◌∷◌, ◌++◌, length, IfOk, OnOk, ℕ, reverse};
ghost use Rattle.sat_base.specs.Work.{TakesGreatest};
ghost use Rattle.clause_store.specs.Clauses.{IsId, clause_at};
ghost use Rattle.trail_book.specs.Trail.{trues};
ghost use Rattle.learn_step.specs.Places.{AreBelow, HaveValues, HasPlaces, hint_of, IsHighest};
ghost use Rattle.learn_step.specs.Reasons.{AreReasoned};
ghost use Rattle.learn_step.specs.Analysis.{IsBroughtIn, IsForced, IsStep};

use crate::learnt::Learnt;
use crate::pending::Pending;
use clause_store::Store;
use sat_base::Lit;
use smallvec::SmallVec;
use std::alloc::{AllocError, Global};
use trail_book::{Entry, Trail};

/// A clause on its way down the trail.
#[derive(Drop)]
pub(crate) struct Analysis {
    /// Where the trail makes the literals false that are still to be looked at.
    pub places: Pending,
    /// The literals that stay.
    pub lits: Vec<Lit>,
    /// The ids of the clauses that were used, the last one first in the order of propagation.
    pub hints: SmallVec<u64, 32>,
}

impl Analysis {
    /// Nothing is at hand.
    pub fn new(alloc: Global) -> Analysis
        ensures places { result.places ≡ [] }
        ensures lits { result.lits.items ≡ [] }
        ensures hints { result.hints.items ≡ [] }
    {
        Analysis {
            places: Pending::new(alloc),
            lits: Vec::new(alloc),
            hints: SmallVec::new(alloc),
        }
    }

    /// Brings in the literals of a clause that are false at places below this one, and names the clause.
    pub fn bring_in(
        &mut self,
        store: &Store,
        trail: &Trail,
        id: u64,
        below: u32,
    ) -> Result<(), AllocError>
        requires id { IsId store.now.clauses id }
        requires values { HaveValues (trues trail.now.entries) (clause_at store.now.clauses id).lits }
        ensures brought_in { OnOk result (IsBroughtIn store.now.clauses trail.now.entries id below self.old.places self.new.places self.old.hints.items self.new.hints.items) }
        ensures lits { OnOk result (self.new.lits ≡ self.old.lits) }
    {
        insert_below(&mut self.places, trail, store.lits(id), below)?;
        self.hints.push(id)?;
        Ok(())
    }

    /// One step of resolution, at a place that was taken out: the literal that is false there stays, or the other literals
    /// of the clause that forced the value come in its place.
    pub fn step(
        &mut self,
        store: &Store,
        trail: &Trail,
        place: u32,
        stays: bool,
    ) -> Result<(), AllocError>
        requires reasoned { AreReasoned store.now.clauses trail.now.entries }
        requires in_range { place < length trail.now.entries }
        requires forced { stays ≡ false → IsForced trail.now.entries place }
        ensures { OnOk result (IsStep store.now.clauses trail.now.entries place stays self.old.places self.new.places self.old.lits.items self.new.lits.items self.old.hints.items self.new.hints.items) }
    {
        let entry = trail.entry(place);
        if stays {
            self.lits.push(entry.lit.negated())?;
            return Ok(());
        }
        let Some(id) = hint(&entry) else {
            unreachable!();
        };
        self.bring_in(store, trail, id, place)
    }

    /// Takes the greatest place out.
    pub fn take_place(&mut self, trail: &Trail) -> Option<u32>
        requires { AreBelow self.old.places (length trail.now.entries) }
        ensures taken { TakesGreatest self.old.places self.new.places result }
        ensures lits { self.new.lits ≡ self.old.lits }
        ensures hints { self.new.hints ≡ self.old.hints }
    {
        let _len = trail.len();
        match self.places.take_greatest() {
            Some(place) => Some(place as u32),
            None => None,
        }
    }

    /// The highest level of the places, and 0 where there are none.
    pub fn highest_level(&self, trail: &Trail) -> u32
        requires { AreBelow self.now.places (length trail.now.entries) }
        ensures { IsHighest trail.now.entries self.now.places result }
    {
        let _len = trail.len();
        match self.places.greatest() {
            Some(place) => trail.level_at(place as u32),
            None => 0,
        }
    }

    /// The clause, and its hints in the order of propagation.
    pub fn finish(self, back_level: u32) -> Learnt
        ensures lits { result.lits ≡ self.lits }
        ensures hints { result.hints.items ≡ reverse self.hints.items }
        ensures back_level { result.back_level ≡ back_level }
    {
        let mut hints = self.hints;
        hints.as_mut_slice().reverse();
        Learnt {
            lits: self.lits,
            hints,
            back_level,
        }
    }
}

/// What a derivation names for a value: its unit step, where it has one, and else the clause that forced it.
pub(crate) fn hint(entry: &Entry) -> Option<u64>
    ensures { result ≡ hint_of entry.now }
{
    match entry.unit {
        Some(id) => Some(id),
        None => entry.reason,
    }
}

/// Inserts the places below this one of the variables of these literals.
fn insert_below(
    places: &mut Pending,
    trail: &Trail,
    lits: &[Lit],
    below: u32,
) -> Result<(), AllocError>
    requires { HaveValues (trues trail.now.entries) lits.now }
    ensures { OnOk result (HasPlaces trail.now.entries lits.now below places.old places.new) }
{
    for lit in lits {
        let place = trail.place(lit.var());
        if place < below {
            places.insert(u64::from(place))?;
        }
    }
    Ok(())
}
