//! Parked watches, and going back.
//!
//! A clause that is satisfied is visited again and again where its false watch is taken back and becomes false anew, while
//! the other watched literal stays true. So that watch may be parked: it leaves the list of its literal, and hangs under
//! the true one. It needs no visit there, since what it watches beside itself is true, and that one is not visited either.
//! Where the true literal is taken back, all that hangs under it goes to the lists first. The links are those of the lists,
//! so neither takes memory. That a watch is parked only under a literal of a lower level is a choice, on which nothing rests.
ghost use Rattle.std.specs.Prelude.{◌≡◌, ◌≢◌, ◌⊎◌, ℕ, ℤ, ◌<◌, suc, min, length, IfSome};
ghost use Rattle.sat_base.specs.Literals.{IsLiteral};
ghost use Rattle.sat_base.specs.Members.{In};
ghost use Rattle.clause_store.specs.Links.{link_of, park_of};
ghost use Rattle.trail_book.specs.Trail.{trues, keep, IsTrail};
ghost use Rattle.propagate.specs.Watches.{AreHung, IsUnparked, IsKeptBut, KeepsClauses};
ghost use Rattle.propagate.specs.Walk.{IsReturning};

use crate::lists::append;
use clause_store::Store;
use sat_base::Lit;
use trail_book::Trail;

/// Takes back the values of all levels above this one. What is parked under them goes back to the lists first.
pub fn back_to(store: &mut Store, trail: &mut Trail, level: u32)
    requires vars { store.old.vars ≡ trail.old.vars }
    requires hung { AreHung store.old trail.old }
    ensures kept { (but : ℕ) → IsKeptBut store.old trail.old but → IsKeptBut store.new trail.new but }
    ensures clauses { KeepsClauses store.old store.new }
    ensures watched { store.new.watched ≡ store.old.watched }
    ensures unparked { IsUnparked store.old → IsUnparked store.new }
    ensures entries { trail.new.entries ≡ keep level trail.old.entries }
    ensures vars { trail.new.vars ≡ trail.old.vars }
    ensures touched { trail.new.touched ≡ trail.old.touched }
    ensures done { trail.new.done ≡ min trail.old.done (length trail.new.entries) }
    ensures ranking { trail.new.ranking ≡ trail.old.ranking }
    ensures held { trail.new.held ≡ trail.old.held }
    ensures trail { IsTrail trail.new.vars trail.new.entries }
{
    let _vars = trail.vars(); // Its literals are over the variables.
    unpark_above(store, trail, level);
    trail.back_to(level);
}

// Has nothing be parked under a literal of a level above this one.
fn unpark_above(store: &mut Store, trail: &Trail, level: u32)
    requires vars { store.old.vars ≡ trail.now.vars }
    requires hung { AreHung store.old trail.now }
    ensures hung { AreHung store.new trail.now }
    ensures empty { (lit : ℤ) → In lit (trues trail.now.entries) → In lit (trues (keep level trail.now.entries)) ⊎ (park_of store.new lit ≡ 0) }
    ensures unparked { IsUnparked store.old → IsUnparked store.new }
    ensures rest { store.new ≡ record store.old { nexts = store.new.nexts; heads = store.new.heads; tails = store.new.tails; parks = store.new.parks } }
{
    let _vars = trail.vars(); // Its literals are over the variables.
    let mut place = trail.len();
    while place > 0 {
        if trail.level_at(place - 1) <= level {
            return;
        }
        place -= 1;
        unpark(store, trail, trail.at(place));
    }
}

// Puts each watch that is parked under the literal into the list of its own literal.
fn unpark(store: &mut Store, trail: &Trail, lit: Lit)
    requires hung { AreHung store.old trail.now }
    requires literal { IsLiteral store.old.vars lit }
    ensures hung { AreHung store.new trail.now }
    ensures empty { park_of store.new lit ≡ 0 }
    ensures others { (other : ℤ) → other ≢ lit → park_of store.new other ≡ park_of store.old other }
    ensures unparked { IsUnparked store.old → IsUnparked store.new }
    ensures rest { store.new ≡ record store.old { nexts = store.new.nexts; heads = store.new.heads; tails = store.new.tails; parks = store.new.parks } }
{
    let mut at = store.parked(lit);
    store.set_parked(lit, None);
    let mut left = 2 * store.len() + 2;
    while let Some(id) = at {
        left -= 1;
        at = release(store, trail, lit, id, left);
    }
}

// Puts the first of the watches that come back into the list of its literal. Gives the clause of the one behind it.
//
// `left` bounds the steps that may follow. No step reads it: it shows that they end.
fn release(store: &mut Store, trail: &Trail, lit: Lit, id: u64, left: u64) -> Option<u64>
    requires returning { IsReturning store.old trail.now lit id (suc left) }
    requires from_one { 0 < id }
    ensures returning { IsReturning store.new trail.now lit (link_of result) left }
    ensures from_one { IfSome result (λ id. 0 < id) }
    ensures parks { store.new.parks ≡ store.old.parks }
    ensures rest { store.new ≡ record store.old { nexts = store.new.nexts; heads = store.new.heads; tails = store.new.tails } }
{
    let (under, own) = store.place_of(id, lit);
    let place = 1 - under;
    let next = store.next(id, place);
    append(store, id, place, own);
    next
}
