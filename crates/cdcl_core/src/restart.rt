//! Restarts.
//!
//! After so many conflicts choices are taken back, and the search goes on from the assumed literals with what it has
//! learnt and with the activities as they are (Gomes, Selman and Kautz 1998). A restart stands right after a conflict,
//! which has paid a unit, so there are no more restarts than units.
//!
//! The first choices stay, up to one that would come behind a variable without value: those before it the search would make
//! again, in one order or another (van der Tak, Ramos and Heule 2011). So what follows from them is not propagated anew.
//! Nothing rests on which ones stay.
//!
//! Positive choices satisfy the map's clauses for long, so its solver parks watches at all times. The oracle's begins to after
//! a few conflicts of one search: from then on the same clauses are visited again and again. A search without
//! conflicts visits most but once, and parking would cost more than it spares.
ghost use Rattle.std.specs.Prelude.{◌≡◌, ◌<◌, ◌≤◌, List, ℤ, length};
ghost use Rattle.propagate.specs.Watches.{AreHung};
ghost use Rattle.cdcl_core.specs.Search.{IsSearch};

use crate::search::Search;
use propagate::back_to;
use sat_base::Lit;
use trail_book::Trail;

// How many conflicts stand between two restarts.
const CONFLICTS: u32 = 100;

// From which conflict of a search on watches are parked.
const PARKING: u32 = 3;

impl Search {
    /// Counts a conflict, behind which no plan is followed, and restarts where there were enough. The assumed levels stay.
    pub fn count_conflict(&mut self)
        requires store_vars { self.old.store.vars ≡ self.old.trail.vars }
        requires hung { AreHung self.old.store self.old.trail }
        ensures search { (assumed : List ℤ) → IsSearch self.old assumed → IsSearch self.new assumed }
        ensures log { self.new.log ≡ self.old.log }
        ensures vars { self.new.trail.vars ≡ self.old.trail.vars }
        ensures touched { self.new.trail.touched ≡ self.old.trail.touched }
        ensures true_first { self.new.true_first ≡ self.old.true_first }
    {
        self.plan.stop();
        if self.conflicts < CONFLICTS - 1 {
            self.conflicts += 1;
            self.parks = self.parks || self.conflicts >= PARKING;
            return;
        }
        self.conflicts = 0;
        let level = reused_level(&self.trail, self.assumed_levels, self.true_first);
        back_to(&mut self.store, &mut self.trail, level);
    }
}

// How early the variable of this index is decided: the greater the number, the earlier. Where choices are positive only, those
// of no activity come first.
fn urgency(trail: &Trail, index: u32, true_first: bool) -> u64
    requires { index < trail.now.vars }
{
    let _vars = trail.vars(); // So each variable's number is that of a literal.
    let activity = trail.activity(index + 1);
    if true_first && activity == 0 {
        u64::MAX
    } else {
        activity
    }
}

// The greatest urgency of a touched variable without value.
fn next_urgency(trail: &Trail, true_first: bool) -> u64 {
    let mut greatest = 0;
    for index in 0..trail.vars() {
        if is_free(trail, index) {
            greatest = urgency(trail, index, true_first).max(greatest);
        }
    }
    greatest
}

// Whether the variable of this index is touched and has no value.
fn is_free(trail: &Trail, index: u32) -> bool
    requires { index < trail.now.vars }
{
    let _vars = trail.vars(); // So each variable's number is that of a literal.
    trail.is_touched(index + 1) && trail.value(Lit::new((index + 1) as i32)).is_none()
}

// The level, from the last assumed one on, up to which the choices would be made again.
fn reused_level(trail: &Trail, assumed_levels: u32, true_first: bool) -> u32
    ensures { assumed_levels ≤ result }
{
    let _vars = trail.vars(); // Its literals are over the variables.
    let next = next_urgency(trail, true_first);
    for place in 0..trail.len() {
        let level = trail.level_at(place);
        if level > assumed_levels && is_later(trail, place, next, true_first) {
            return level - 1;
        }
    }
    trail.top().max(assumed_levels)
}

// Whether the literal at this place was decided, and would be decided later than one of this urgency.
fn is_later(trail: &Trail, place: u32, next: u64, true_first: bool) -> bool
    requires { place < length trail.now.entries }
{
    let _vars = trail.vars(); // Its literals are over the variables.
    let entry = trail.entry(place);
    entry.reason.is_none() && urgency(trail, entry.lit.var() - 1, true_first) < next
}
