//! Redundant literals.
//!
//! A literal of the clause at hand is redundant if the clause that forced its negation has no other literals than those at
//! hand, those of level 0, and redundant ones (Sörensson and Biere 2009). It can be resolved away, and nothing that this
//! brings in has to stay. A walk from its place goes down to the places by which it was forced, and keeps its path on a
//! stack. What a walk finds of a place holds for the whole analysis, so no clause is walked twice.
//!
//! What a walk finds decides which literals stay, and no more: what is resolved away follows by its hint, as it does above.
ghost use Rattle.std.specs.Prelude.{◌≡◌, ◌<◌, true, length, IfOk, IfSome, All};
ghost use Rattle.learn_step.specs.Reasons.{AreReasoned};
ghost use Rattle.learn_step.specs.Analysis.{IsForced};
ghost use Rattle.learn_step.specs.Redundancy.{IsStop, Continues};

use crate::analysis::hint;
use crate::pending::Pending;
use clause_store::Store;
use std::alloc::{AllocError, Global};
use trail_book::Trail;

/// What the walks of one analysis have found.
#[derive(Drop)]
pub(crate) struct Redundancy {
    // From the place that is asked for down to the one where the walk is.
    path: Vec<Stop>,
    redundant: Pending,
    needed: Pending,
}

/// A place on the path.
#[derive(Clone, Copy)]
pub(crate) struct Stop {
    pub place: u32,
    /// The clause that forced the value there.
    pub id: u64,
    /// How many of its literals were looked at.
    pub looked: usize,
}

/// What the literals of a clause tell.
pub(crate) enum Look {
    /// One is to be walked first: the place from which it was seen, and its own.
    Deeper(Stop, Stop),
    /// All others are at hand, of level 0 or redundant.
    Redundant,
    /// Another one is not.
    Needed,
}

impl Redundancy {
    /// Nothing is known. It takes no memory.
    pub fn new(alloc: Global) -> Redundancy {
        Redundancy {
            path: Vec::new(alloc),
            redundant: Pending::new(alloc),
            needed: Pending::new(alloc),
        }
    }

    /// Whether the literal that is false at a place is redundant, beside those that are false at the places at hand.
    pub fn is_redundant(
        &mut self,
        hand: &Pending,
        store: &Store,
        trail: &Trail,
        place: u32,
    ) -> Result<bool, AllocError>
        requires reasoned { AreReasoned store.now.clauses trail.now.entries }
        requires in_range { place < length trail.now.entries }
        ensures { IfOk result (λ redundant. redundant ≡ true → IsForced trail.now.entries place) }
    {
        let Some(stop) = stop_at(trail, place) else {
            return Ok(false);
        };
        self.path.clear();
        self.path.push(stop)?;
        self.walk(hand, store, trail)
    }

    // Walks from the end of the path until all of it is redundant, or none is.
    fn walk(&mut self, hand: &Pending, store: &Store, trail: &Trail) -> Result<bool, AllocError>
        requires reasoned { AreReasoned store.now.clauses trail.now.entries }
        requires path { All (IsStop trail.now.entries) self.old.path.items }
    {
        for _ in 0..u32::MAX {
            let Some(stop) = self.path.pop() else {
                return Ok(true);
            };
            match self.look(hand, store, trail, stop) {
                Look::Deeper(seen, next) => {
                    self.path.push(seen)?;
                    self.path.push(next)?;
                }
                Look::Redundant => self.redundant.insert(u64::from(stop.place))?,
                Look::Needed => {
                    self.path.push(stop)?;
                    break;
                }
            }
        }
        self.need_path()?;
        Ok(false)
    }

    // Nothing on the path is redundant.
    fn need_path(&mut self) -> Result<(), AllocError> {
        while let Some(stop) = self.path.pop() {
            self.needed.insert(u64::from(stop.place))?;
        }
        Ok(())
    }

    // Looks at the literals of a clause that were not looked at yet.
    fn look(&self, hand: &Pending, store: &Store, trail: &Trail, stop: Stop) -> Look
        requires reasoned { AreReasoned store.now.clauses trail.now.entries }
        requires stop { IsStop trail.now.entries stop }
        ensures { Continues trail.now.entries result }
    {
        let lits = store.lits(stop.id);
        for at in stop.looked..lits.len() {
            let place = trail.place(lits[at].var());
            if place >= stop.place || self.goes(hand, trail, place) {
                continue;
            }
            return self.deeper(
                trail,
                place,
                Stop {
                    looked: at + 1,
                    ..stop
                },
            );
        }
        Look::Redundant
    }

    // Whether the literal that is false at a place is at hand, of level 0, or known to be redundant.
    fn goes(&self, hand: &Pending, trail: &Trail, place: u32) -> bool
        requires { place < length trail.now.entries }
    {
        let number = u64::from(place);
        hand.has(number) || self.redundant.has(number) || trail.level_at(place) == 0
    }

    // Goes on to a place, unless it is needed.
    fn deeper(&self, trail: &Trail, place: u32, seen: Stop) -> Look
        requires in_range { place < length trail.now.entries }
        requires seen { IsStop trail.now.entries seen }
        ensures { Continues trail.now.entries result }
    {
        if self.needed.has(u64::from(place)) {
            return Look::Needed;
        }
        match stop_at(trail, place) {
            Some(next) => Look::Deeper(seen, next),
            None => Look::Needed,
        }
    }
}

// The stop at a place, where a clause forced the value.
fn stop_at(trail: &Trail, place: u32) -> Option<Stop>
    requires { place < length trail.now.entries }
    ensures place { IfSome result (λ stop. stop.place ≡ place) }
    ensures stop { IfSome result (IsStop trail.now.entries) }
{
    let id = hint(&trail.entry(place))?;
    Some(Stop {
        place,
        id,
        looked: 0,
    })
}
