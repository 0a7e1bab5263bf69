//! Tests of what conflict analysis requires: that each value has a clause that forced it, and that a clause is falsified.
//!
//! A solver keeps this true by the way in which it works. Here somebody wrote trail and clauses down, so it is looked at:
//! a value at a place is forced by a clause where its other literals are false by values at lower places.
ghost use Rattle.std.specs.Prelude.{◌≡◌, ◌⊎◌, ◌<◌, ◌+◌, [], ◌∷◌, true, neg_ℤ, length};
ghost use Rattle.sat_base.specs.Members.{In};
ghost use Rattle.sat_base.specs.Units.{AllFalse, AllFalseBut, IsReason};
ghost use Rattle.clause_store.specs.Clauses.{IsId};
ghost use Rattle.trail_book.specs.Trail.{trues, top, oldest};
ghost use Rattle.learn_step.specs.Reasons.{AreReasoned, HasReason, HasUnit, IsConflict, IsFalse, IsFalseClause, IsDecision, HasOpen};

use clause_store::Store;
use learn_step::Origin;
use propagate::level_of;
use sat_base::Lit;
use trail_book::Trail;
use trial_lits::is_among;

/// Whether each value has a clause that forced it, where it names one, and a unit step, where it names one.
pub fn are_reasoned(store: &Store, trail: &Trail) -> bool
    ensures { result ≡ true → AreReasoned store.now.clauses trail.now.entries }
{
    for place in 0..trail.len() {
        if !is_reasoned(store, trail, place) {
            return false;
        }
    }
    true
}

// The same of the value at a place, where those at lower places are so.
fn is_reasoned(store: &Store, trail: &Trail, place: u32) -> bool
    requires { place < length trail.now.entries }
    ensures { result ≡ true → AreReasoned store.now.clauses (oldest place trail.now.entries) → AreReasoned store.now.clauses (oldest (place + 1) trail.now.entries) }
{
    let entry = trail.entry(place);
    has_reason(store, trail, place, entry.lit, entry.reason)
        && has_unit(store, entry.lit, entry.unit)
}

fn has_reason(store: &Store, trail: &Trail, place: u32, lit: Lit, reason: Option<u64>) -> bool
    ensures { result ≡ true → HasReason store.now.clauses (trues (oldest place trail.now.entries)) lit reason }
{
    match reason {
        Some(id) => forces(store, trail, place, lit, id),
        None => true,
    }
}

fn has_unit(store: &Store, lit: Lit, unit: Option<u64>) -> bool
    ensures { result ≡ true → HasUnit store.now.clauses lit unit }
{
    match unit {
        Some(id) => is_id(store, id) && is_only(lit, store.lits(id)),
        None => true,
    }
}

fn is_only(lit: Lit, clause: &[Lit]) -> bool
    ensures { result ≡ true → clause.now ≡ lit ∷ [] }
{
    match clause {
        [only] => *only == lit,
        _ => false,
    }
}

fn is_id(store: &Store, id: u64) -> bool
    ensures { result ≡ true → IsId store.now.clauses id }
{
    id > 0 && id <= store.len()
}

// Whether the clause forces the literal by the values at lower places.
fn forces(store: &Store, trail: &Trail, place: u32, lit: Lit, id: u64) -> bool
    ensures { result ≡ true → IsReason store.now.clauses (trues (oldest place trail.now.entries)) lit id }
{
    if !is_id(store, id) {
        return false;
    }
    let clause = store.lits(id);
    is_among(lit, clause) && are_false_but(trail, clause, lit, place)
}

// Whether all literals but one are false by values at lower places.
fn are_false_but(trail: &Trail, clause: &[Lit], but: Lit, place: u32) -> bool
    ensures { result ≡ true → AllFalseBut (trues (oldest place trail.now.entries)) clause.now but }
{
    for lit in clause {
        if !is_false_but(trail, *lit, but, place) {
            return false;
        }
    }
    true
}

fn is_false_but(trail: &Trail, lit: Lit, but: Lit, place: u32) -> bool
    ensures { result ≡ true → (lit ≡ but) ⊎ In (neg_ℤ lit) (trues (oldest place trail.now.entries)) }
{
    lit == but || is_false_below(trail, lit, place)
}

fn is_false_below(trail: &Trail, lit: Lit, place: u32) -> bool
    ensures { result ≡ true → In (neg_ℤ lit) (trues (oldest place trail.now.entries)) }
{
    let _vars = trail.vars(); // A variable has one place on a trail.
    is_false(trail, lit) && trail.place(lit.var()) < place
}

fn is_false(trail: &Trail, lit: Lit) -> bool
    ensures { result ≡ true → In (neg_ℤ lit) (trues trail.now.entries) }
{
    lit.var() <= trail.vars() && trail.value(lit) == Some(false)
}

fn are_false(trail: &Trail, clause: &[Lit]) -> bool
    ensures { result ≡ true → AllFalse (trues trail.now.entries) clause.now }
{
    for lit in clause {
        if !is_false(trail, *lit) {
            return false;
        }
    }
    true
}

fn is_false_clause(store: &Store, trail: &Trail, id: u64) -> bool
    ensures { result ≡ true → IsFalseClause store.now.clauses trail.now.entries id }
{
    is_id(store, id) && are_false(trail, store.lits(id))
}

/// Whether all literals of the clause of this id are false, and one became so at the top level.
pub fn is_conflict(store: &Store, trail: &Trail, id: u64) -> bool
    requires { 0 < top trail.now.entries }
    ensures { result ≡ true → IsConflict store.now.clauses trail.now.entries id }
{
    if !is_id(store, id) {
        return false;
    }
    let clause = store.lits(id);
    are_false(trail, clause) && has_open(trail, clause)
}

// Whether one of the literals became false at the top level.
fn has_open(trail: &Trail, clause: &[Lit]) -> bool
    requires level { 0 < top trail.now.entries }
    requires all_false { AllFalse (trues trail.now.entries) clause.now }
    ensures { result ≡ true → HasOpen trail.now.entries clause.now }
{
    for lit in clause {
        if level_of(trail, lit.negated()) == trail.top() {
            return true;
        }
    }
    false
}

/// Whether this is false: a clause, or an assumption whose negation was not decided.
pub fn is_origin(store: &Store, trail: &Trail, origin: &Origin) -> bool
    ensures { result ≡ true → IsFalse store.now.clauses trail.now.entries origin.now }
{
    match origin {
        Origin::Conflict(id) => is_false_clause(store, trail, *id),
        Origin::Assumption(lit) => is_forced(trail, *lit),
    }
}

// Whether the negation of a literal is true, and was not decided.
fn is_forced(trail: &Trail, lit: Lit) -> bool
    ensures { result ≡ true → In (neg_ℤ lit) (trues trail.now.entries) × (¬ IsDecision trail.now.entries (neg_ℤ lit)) }
{
    is_false(trail, lit) && trail.reason(lit.var()).is_some()
}
