//! A look at one clause, of which one watched literal is false.
//!
//! Where the other one is not true, a literal is searched for that can be watched instead. Of a clause of three literals
//! the record tells the third one. Over few variables the store has the literals of each clause as words, and the trail the
//! true ones, so that the search is a few steps of arithmetic. Otherwise the literals are looked at one by one, from where
//! the last search ended.
ghost use Rattle.std.specs.Prelude.{◌≡◌, ◌≢◌, ◌⊎◌, ◌≤◌, true, false, ℕ, ℤ, List, neg_ℤ, take, length, IfSome, IfNone};
ghost use Rattle.sat_base.specs.Members.{In};
ghost use Rattle.sat_base.specs.Literals.{AreLiterals, IsLiteral};
ghost use Rattle.sat_base.specs.Units.{AllFalseBut};
ghost use Rattle.lit_words.specs.Words.{Has, IsOpen};
ghost use Rattle.clause_store.specs.Clauses.{clause_at, IsId};
ghost use Rattle.trail_book.specs.Trail.{trues};
ghost use Rattle.propagate.specs.Walk.{CanWatch, IsFalseWatch, Visits};

use crate::entrance::level_of;
use clause_store::Store;
use lit_words::LitWords;
use sat_base::Lit;
use trail_book::Trail;

/// What the values make of a clause, of which one watched literal is false.
#[derive(Clone, Copy)]
pub enum Finding {
    /// The other watched literal is true.
    Satisfied,
    /// The same, and the false one is to be parked under it.
    Settled,
    /// It can watch this literal instead of the false one. The search for it ended at this place.
    Moved(Lit, usize),
    /// It forces the other watched literal.
    Forcing,
    /// All its literals are false.
    Falsified,
}

/// What the clause of this id does, which watches `falsified` and `other`.
///
/// Where watches are parked, one is whose clause has the other one true at a level below the top one. At the top level it
/// would come back as soon as it goes.
pub fn visit(
    store: &Store,
    trail: &Trail,
    id: u64,
    falsified: Lit,
    other: Lit,
    parks: bool,
) -> Finding
    requires vars { store.now.vars ≡ trail.now.vars }
    requires id { IsId store.now.clauses id }
    requires other { IsLiteral store.now.vars other }
    requires watch { IsFalseWatch (trues trail.now.entries) (clause_at store.now.clauses id).lits falsified other }
    ensures { Visits store.now.vars (trues trail.now.entries) (clause_at store.now.clauses id).lits other parks result }
{
    let value = trail.value(other);
    if value == Some(true) {
        return satisfied(trail, other, parks);
    }
    if let Some((lit, place)) = replacement(store, trail, id, falsified, other) {
        return Finding::Moved(lit, place);
    }
    if value == Some(false) {
        Finding::Falsified
    } else {
        Finding::Forcing
    }
}

// The watch may stay, or be parked.
fn satisfied(trail: &Trail, other: Lit, parks: bool) -> Finding
    requires { In other (trues trail.now.entries) }
    ensures { (vars : ℕ) (clause : List ℤ) → Visits vars (trues trail.now.entries) clause other parks result }
{
    if parks && level_of(trail, other) < trail.top() {
        Finding::Settled
    } else {
        Finding::Satisfied
    }
}

// A literal that is neither false nor `other`, and a place for the next search. Of a clause of three literals it is the
// third one, or none.
fn replacement(
    store: &Store,
    trail: &Trail,
    id: u64,
    falsified: Lit,
    other: Lit,
) -> Option<(Lit, usize)>
    requires vars { store.now.vars ≡ trail.now.vars }
    requires id { IsId store.now.clauses id }
    requires watch { IsFalseWatch (trues trail.now.entries) (clause_at store.now.clauses id).lits falsified other }
    ensures found { IfSome result (λ at. CanWatch trail.now.vars (trues trail.now.entries) (clause_at store.now.clauses id).lits other at.0) }
    ensures none { IfNone result (AllFalseBut (trues trail.now.entries) (clause_at store.now.clauses id).lits other) }
{
    let _vars = store.vars(); // The literals of its clauses are over the variables.
    match store.third(id, falsified, other) {
        Some(third) => third_open(trail, third, other),
        None => open_of_any(store, trail, id, falsified, other),
    }
}

// The same of a clause of any length: by words where the store and the trail have them, and else by its literals.
fn open_of_any(
    store: &Store,
    trail: &Trail,
    id: u64,
    falsified: Lit,
    other: Lit,
) -> Option<(Lit, usize)>
    requires vars { store.now.vars ≡ trail.now.vars }
    requires id { IsId store.now.clauses id }
    requires watch { IsFalseWatch (trues trail.now.entries) (clause_at store.now.clauses id).lits falsified other }
    ensures found { IfSome result (λ at. CanWatch trail.now.vars (trues trail.now.entries) (clause_at store.now.clauses id).lits other at.0) }
    ensures none { IfNone result (AllFalseBut (trues trail.now.entries) (clause_at store.now.clauses id).lits other) }
{
    let _vars = store.vars(); // The literals of its clauses are over the variables.
    match (store.words(id), trail.true_words()) {
        (Some(words), Some(trues)) => open_word(words, trues, other),
        _ => among(store.lits(id), trail, store.position(id), falsified, other),
    }
}

fn open_word(words: LitWords, trues: LitWords, other: Lit) -> Option<(Lit, usize)>
    requires { IsLiteral 64 other }
    ensures found { IfSome result (λ at. IsOpen words trues other at.0) }
    ensures none { IfNone result ((lit : ℤ) → Has words lit → (lit ≡ other) ⊎ Has trues (neg_ℤ lit)) }
{
    let lit = words.open(trues, other)?;
    Some((lit, 0))
}

fn third_open(trail: &Trail, third: Lit, other: Lit) -> Option<(Lit, usize)>
    requires { IsLiteral trail.now.vars third }
    ensures found { IfSome result (λ at. (at.0 ≡ third) × (third ≢ other) × (¬ In (neg_ℤ third) (trues trail.now.entries))) }
    ensures none { IfNone result ((third ≡ other) ⊎ In (neg_ℤ third) (trues trail.now.entries)) }
{
    if may_watch(trail, third, other) {
        Some((third, 0))
    } else {
        None
    }
}

// The same by its literals. A clause of two has none, and they are not read.
fn among(
    clause: &[Lit],
    trail: &Trail,
    from: usize,
    falsified: Lit,
    other: Lit,
) -> Option<(Lit, usize)>
    requires literals { AreLiterals trail.now.vars clause.now }
    requires from { from ≤ length clause.now }
    requires watch { IsFalseWatch (trues trail.now.entries) clause.now falsified other }
    ensures found { IfSome result (λ at. CanWatch trail.now.vars (trues trail.now.entries) clause.now other at.0) }
    ensures none { IfNone result (AllFalseBut (trues trail.now.entries) clause.now other) }
{
    if clause.len() == 2 {
        None
    } else {
        around(clause, trail, from, other)
    }
}

// Searches from a place on, and then from the first place up to it.
fn around(clause: &[Lit], trail: &Trail, from: usize, other: Lit) -> Option<(Lit, usize)>
    requires literals { AreLiterals trail.now.vars clause.now }
    requires from { from ≤ length clause.now }
    ensures found { IfSome result (λ at. CanWatch trail.now.vars (trues trail.now.entries) clause.now other at.0) }
    ensures none { IfNone result (AllFalseBut (trues trail.now.entries) clause.now other) }
{
    match open_between(clause, trail, from, clause.len(), other) {
        Some(at) => Some(at),
        None => open_between(clause, trail, 0, from, other),
    }
}

// A literal from one place on and before another that is neither false nor `other`, and its place.
fn open_between(
    clause: &[Lit],
    trail: &Trail,
    from: usize,
    to: usize,
    other: Lit,
) -> Option<(Lit, usize)>
    requires literals { AreLiterals trail.now.vars clause.now }
    requires from { from ≤ to }
    requires to { to ≤ length clause.now }
    ensures found { IfSome result (λ at. CanWatch trail.now.vars (trues trail.now.entries) clause.now other at.0) }
    ensures none { IfNone result (AllFalseBut (trues trail.now.entries) (take from clause.now) other → AllFalseBut (trues trail.now.entries) (take to clause.now) other) }
{
    for place in from..to {
        let lit = clause[place];
        if may_watch(trail, lit, other) {
            return Some((lit, place));
        }
    }
    None
}

/// The first literal of the clause that is neither false nor `other`.
pub fn other_open(trail: &Trail, clause: &[Lit], other: Lit) -> Option<Lit>
    requires { AreLiterals trail.now.vars clause.now }
    ensures found { IfSome result (CanWatch trail.now.vars (trues trail.now.entries) clause.now other) }
    ensures none { IfNone result (AllFalseBut (trues trail.now.entries) clause.now other) }
{
    for lit in clause {
        if may_watch(trail, *lit, other) {
            return Some(*lit);
        }
    }
    None
}

fn may_watch(trail: &Trail, lit: Lit, other: Lit) -> bool
    requires { IsLiteral trail.now.vars lit }
    ensures yes { result ≡ true → (lit ≢ other) × (¬ In (neg_ℤ lit) (trues trail.now.entries)) }
    ensures no { result ≡ false → (lit ≡ other) ⊎ In (neg_ℤ lit) (trues trail.now.entries) }
{
    let _vars = trail.vars(); // No literal is both true and false.
    if lit == other {
        return false;
    }
    match trail.value(lit) {
        None => true,
        Some(true) => true,
        Some(false) => false,
    }
}
