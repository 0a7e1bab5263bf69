//! Unit propagation by watched literals.
//!
//! A clause need not be looked at while two of its literals are not false. So each clause watches two of them, and is
//! found when one of the two becomes false (Chaff: Moskewicz and others 2001). Then it watches another literal in its
//! place, if there is one that is not false. Where there is none, and the other watched literal is not true, the clause
//! forces that literal or is falsified.
//!
//! The values are propagated one after the other, in the order of the trail. A visit goes along the list of the clauses
//! that watch the literal that has become false. What always holds (`specs/Watches.antt`):
//!
//! - each watch hangs at one place: in the list of its literal, or parked under the other watched literal of its clause,
//!   which is true then (`parking.rt`);
//! - where a watched literal is false and was propagated, the other one is true, at a level that is not above it: so
//!   going back needs no work on the lists;
//! - a live clause that is not watched has a literal that is true at level 0, unless one is kept that is false there.
ghost use Rattle.std.specs.Prelude.{◌≡◌, suc, ◌+◌, ◌<◌, ◌∷◌, false, length, neg_ℤ, IfSome, IfNone};
ghost use Rattle.sat_base.specs.Literals.{IsLiteral};
ghost use Rattle.sat_base.specs.Units.{IsFalsified};
ghost use Rattle.clause_store.specs.Links.{link_of};
ghost use Rattle.trail_book.specs.Trail.{trues, oldest, IsTrail};
ghost use Rattle.propagate.specs.Propagation.{Grows, Tells, IsDone};
ghost use Rattle.propagate.specs.Watches.{IsKept, IsUnparked, KeepsClauses};
ghost use Rattle.propagate.specs.Walk.{IsWalk};

use crate::lists::{append, paired, park, unlink};
use crate::propagated::Propagated;
use crate::visit::{Finding, visit};
use clause_store::Store;
use sat_base::Lit;
use trail_book::Trail;

/// A place in a list: the clause before it, and the clause that stands there.
#[derive(Clone, Copy)]
pub struct Cursor {
    pub before: Option<u64>,
    pub at: Option<u64>,
}

/// Makes each literal true that a live clause forces, until a clause is falsified or none forces one.
///
/// No watch is parked: where none was, the trail may go back by its own call (`laws`).
pub fn propagate(store: &mut Store, trail: &mut Trail) -> Propagated
    requires { IsKept store.old trail.old }
    ensures kept { IsKept store.new trail.new }
    ensures grows { Grows store.old.clauses trail.old.entries trail.new.entries }
    ensures answer { Tells store.old.clauses (trues trail.new.entries) result }
    ensures all_done { IsDone store.new trail.new result }
    ensures clauses { KeepsClauses store.old store.new }
    ensures vars { trail.new.vars ≡ trail.old.vars }
    ensures touched { trail.new.touched ≡ trail.old.touched }
    ensures trail { IsTrail trail.new.vars trail.new.entries }
    ensures unparked { IsUnparked store.old → IsUnparked store.new }
{
    propagate_by(store, trail, false)
}

/// The same, and watches are parked: it pays where clauses are satisfied for long, and is for the caller to choose.
pub fn propagate_parking(store: &mut Store, trail: &mut Trail) -> Propagated
    requires { IsKept store.old trail.old }
    ensures kept { IsKept store.new trail.new }
    ensures grows { Grows store.old.clauses trail.old.entries trail.new.entries }
    ensures answer { Tells store.old.clauses (trues trail.new.entries) result }
    ensures all_done { IsDone store.new trail.new result }
    ensures clauses { KeepsClauses store.old store.new }
    ensures vars { trail.new.vars ≡ trail.old.vars }
    ensures touched { trail.new.touched ≡ trail.old.touched }
    ensures trail { IsTrail trail.new.vars trail.new.entries }
{
    propagate_by(store, trail, true)
}

// The same, whether watches are parked or not.
fn propagate_by(store: &mut Store, trail: &mut Trail, parks: bool) -> Propagated
    requires { IsKept store.old trail.old }
    ensures kept { IsKept store.new trail.new }
    ensures grows { Grows store.old.clauses trail.old.entries trail.new.entries }
    ensures answer { Tells store.old.clauses (trues trail.new.entries) result }
    ensures all_done { IsDone store.new trail.new result }
    ensures clauses { KeepsClauses store.old store.new }
    ensures vars { trail.new.vars ≡ trail.old.vars }
    ensures touched { trail.new.touched ≡ trail.old.touched }
    ensures trail { IsTrail trail.new.vars trail.new.entries }
    ensures unasked { parks ≡ false → store.new.parks ≡ store.old.parks }
{
    let _vars = trail.vars(); // A trail has no more values than variables, and so it ends.
    if let Some(id) = store.false_id() {
        return Propagated::Conflict(id);
    }
    while trail.done() < trail.len() {
        let done = trail.done();
        let falsified = trail.at(done).negated();
        if let Some(id) = visit_all(store, trail, falsified, parks) {
            return Propagated::Conflict(id);
        }
        trail.set_done(done + 1);
    }
    Propagated::Fixpoint
}

// Visits each clause that watches the literal, up to one that is falsified.
fn visit_all(store: &mut Store, trail: &mut Trail, falsified: Lit, parks: bool) -> Option<u64>
    requires kept { IsKept store.old trail.old }
    requires none { store.old.false_id ≡ 0 }
    requires literal { IsLiteral store.old.vars falsified }
    requires waiting { trail.old.done < length trail.old.entries }
    requires now { trues (oldest (trail.old.done + 1) trail.old.entries) ≡ neg_ℤ falsified ∷ trues (oldest trail.old.done trail.old.entries) }
    ensures kept { IsKept store.new trail.new }
    ensures falsified { IfSome result (λ id. IsFalsified store.old.clauses (trues trail.new.entries) id) }
    ensures propagated { IfNone result (IsKept store.new (record trail.new { done = trail.new.done + 1 })) }
    ensures grows { Grows store.old.clauses trail.old.entries trail.new.entries }
    ensures clauses { KeepsClauses store.old store.new }
    ensures unasked { parks ≡ false → store.new.parks ≡ store.old.parks }
    ensures done { trail.new.done ≡ trail.old.done }
    ensures vars { trail.new.vars ≡ trail.old.vars }
    ensures touched { trail.new.touched ≡ trail.old.touched }
    ensures trail { IsTrail trail.new.vars trail.new.entries }
{
    let _vars = trail.vars(); // It is a trail, also where nothing is visited.
    let mut cursor = Cursor {
        before: None,
        at: store.head(falsified),
    };
    let mut left = 2 * store.len() + 2;
    while let Some(id) = cursor.at {
        left -= 1;
        match step(store, trail, falsified, cursor.before, id, parks, left) {
            Some(next) => {
                cursor = next;
            }
            None => {
                return Some(id);
            }
        }
    }
    None
}

// Visits one clause. Gives the place behind it, or none where it is falsified.
//
// `left` bounds the steps that may follow. No step reads it: it shows that they end.
fn step(
    store: &mut Store,
    trail: &mut Trail,
    falsified: Lit,
    before: Option<u64>,
    id: u64,
    parks: bool,
    left: u64,
) -> Option<Cursor>
    requires walk { IsWalk store.old trail.old falsified (link_of before) id (suc left) }
    requires from_one { 0 < id }
    requires before_from_one { IfSome before (λ id. 0 < id) }
    ensures walk { IfSome result (λ next. IsWalk store.new trail.new falsified (link_of next.before) (link_of next.at) left) }
    ensures from_one { IfSome result (λ next. IfSome next.before (λ id. 0 < id) × IfSome next.at (λ id. 0 < id)) }
    ensures falsified { IfNone result (IsKept store.new trail.new × IsFalsified store.old.clauses (trues trail.new.entries) id) }
    ensures grows { Grows store.old.clauses trail.old.entries trail.new.entries }
    ensures clauses { KeepsClauses store.old store.new }
    ensures unasked { parks ≡ false → store.new.parks ≡ store.old.parks }
    ensures done { trail.new.done ≡ trail.old.done }
    ensures vars { trail.new.vars ≡ trail.old.vars }
    ensures touched { trail.new.touched ≡ trail.old.touched }
    ensures trail { IsTrail trail.new.vars trail.new.entries }
{
    let _vars = trail.vars(); // No literal is both true and false.
    let (place, other) = store.place_of(id, falsified);
    let at = store.next(id, place);
    match visit(store, trail, id, falsified, other, parks) {
        Finding::Satisfied => Some(Cursor {
            before: Some(id),
            at,
        }),
        Finding::Settled => {
            unlink(store, falsified, before, at);
            park(store, id, place, other);
            Some(Cursor { before, at })
        }
        Finding::Moved(to, position) => {
            unlink(store, falsified, before, at);
            append(store, id, place, to);
            store.set_watched(id, Some(paired(place, to, other)));
            store.set_position(id, position);
            Some(Cursor { before, at })
        }
        Finding::Forcing => {
            trail.assign(other, id);
            Some(Cursor {
                before: Some(id),
                at,
            })
        }
        Finding::Falsified => None,
    }
}
