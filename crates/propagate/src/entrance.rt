//! How a clause comes to be watched.
//!
//! A new clause looks at nothing but itself, at any level. Where two different literals of it are not false it watches
//! them. Otherwise the trail goes back as far as the clause asks, and no further. Where all its literals are false, it goes
//! below the level at which the last of them became so; what is false at level 0 is answered by propagation next. Where
//! one alone is not false, it goes to the level at which the last of the others became false, unless the one is true there
//! already: the clause forces it there, and watches both. A clause of one literal is settled at level 0.
//!
//! So below the levels that stay the clause was neither falsified nor unit, and a trail that was a fixpoint before each
//! decision is so with the new clause too. All that costs the clause and what is taken back.
ghost use Rattle.std.specs.Prelude.{◌≡◌, ◌≢◌, ◌⊎◌, ℕ, ℤ, ◌<◌, ◌≤◌, true, false, None, Some, neg_ℤ, IfSome, IfNone};
ghost use Rattle.sat_base.specs.Literals.{AreLiterals, IsLiteral};
ghost use Rattle.sat_base.specs.Members.{In};
ghost use Rattle.sat_base.specs.Units.{AllFalse, AllFalseBut};
ghost use Rattle.clause_store.specs.Clauses.{clause_at, IsId};
ghost use Rattle.clause_store.specs.Links.{watched_at};
ghost use Rattle.trail_book.specs.Trail.{trues, top, keep, IsTrail};
ghost use Rattle.propagate.specs.Propagation.{Grows};
ghost use Rattle.propagate.specs.Watches.{AreHung, IsUnparked, IsGuarded, IsKeptBut, IsKept, KeepsClauses};
ghost use Rattle.propagate.specs.Entrance.{IsUnwatched, IsLooseBelow, StaysWhereOpen, IsLast, IsForcedAt};

use crate::lists::append;
use crate::parking::back_to;
use crate::visit::other_open;
use clause_store::Store;
use sat_base::Lit;
use trail_book::Trail;

/// Has a live clause, which watches nothing yet, watch two of its literals. The trail is not looked at.
pub fn watch(store: &mut Store, trail: &Trail, id: u64, first: Lit, second: Lit)
    requires kept { IsKeptBut store.old trail.now id }
    requires id { IsId store.old.clauses id }
    requires live { (clause_at store.old.clauses id).live ≡ true }
    requires idle { watched_at store.old id ≡ None }
    requires first { In first (clause_at store.old.clauses id).lits }
    requires second { In second (clause_at store.old.clauses id).lits }
    requires differ { first ≢ second }
    requires first_guard { IsGuarded trail.now.entries trail.now.done first second }
    requires second_guard { IsGuarded trail.now.entries trail.now.done second first }
    ensures kept { IsKept store.new trail.now }
    ensures clauses { KeepsClauses store.old store.new }
    ensures unparked { IsUnparked store.old → IsUnparked store.new }
{
    let _vars = store.vars(); // The literals of its clauses are over the variables.
    append(store, id, 0, first);
    append(store, id, 1, second);
    store.set_watched(id, Some((first, second)));
}

/// Has a new clause be watched or settled, at whatever level. The trail goes back where the clause asks for it: below its
/// new top level the clause was neither falsified nor unit, and what is lower than two different literals of it that are
/// not false stays.
pub fn enter(store: &mut Store, trail: &mut Trail, id: u64, lits: &[Lit])
    requires kept { IsKeptBut store.old trail.old id }
    requires unwatched { IsUnwatched store.old id lits.now }
    requires literals { AreLiterals trail.old.vars lits.now }
    ensures kept { IsKept store.new trail.new }
    ensures clauses { store.new.clauses ≡ store.old.clauses }
    ensures store_vars { store.new.vars ≡ store.old.vars }
    ensures unparked { IsUnparked store.old → IsUnparked store.new }
    ensures grows { Grows store.old.clauses (keep (top trail.new.entries) trail.old.entries) trail.new.entries }
    ensures loose { IsLooseBelow trail.old.entries (top trail.new.entries) lits.now }
    ensures stays { StaysWhereOpen trail.old.entries trail.new.entries lits.now }
    ensures vars { trail.new.vars ≡ trail.old.vars }
    ensures touched { trail.new.touched ≡ trail.old.touched }
    ensures trail { IsTrail trail.new.vars trail.new.entries }
{
    match reopen(store, trail, lits) {
        None => store.set_false_id(Some(id)),
        Some(first) => enter_open(store, trail, id, lits, first),
    }
}

// A literal of the clause that is not false. Where all are, it goes back below the level at which the last became so.
fn reopen(store: &mut Store, trail: &mut Trail, lits: &[Lit]) -> Option<Lit>
    requires literals { AreLiterals trail.old.vars lits.now }
    requires vars { store.old.vars ≡ trail.old.vars }
    requires hung { AreHung store.old trail.old }
    ensures some { IfSome result (λ lit. In lit lits.now × (¬ In (neg_ℤ lit) (trues trail.new.entries))) }
    ensures none { IfNone result ((top trail.new.entries ≡ 0) × AllFalse (trues trail.new.entries) lits.now) }
    ensures entries { trail.new.entries ≡ keep (top trail.new.entries) trail.old.entries }
    ensures kept { (but : ℕ) → IsKeptBut store.old trail.old but → IsKeptBut store.new trail.new but }
    ensures clauses { KeepsClauses store.old store.new }
    ensures watched { store.new.watched ≡ store.old.watched }
    ensures unparked { IsUnparked store.old → IsUnparked store.new }
    ensures stays { StaysWhereOpen trail.old.entries trail.new.entries lits.now }
    ensures vars { trail.new.vars ≡ trail.old.vars }
    ensures touched { trail.new.touched ≡ trail.old.touched }
    ensures trail { IsTrail trail.new.vars trail.new.entries }
{
    let _vars = trail.vars(); // It is a trail, also where nothing is taken back.
    if let Some(first) = first_open(trail, lits) {
        return Some(first);
    }
    match last_false(trail, lits, None) {
        None => {
            back_to(store, trail, 0);
            None
        }
        Some(last) => below(store, trail, lits, last),
    }
}

// Goes back below the level at which the last literal became false, and gives it; at level 0 there is nothing below.
fn below(store: &mut Store, trail: &mut Trail, lits: &[Lit], last: Lit) -> Option<Lit>
    requires last { IsLast trail.old.entries lits.now None last }
    requires vars { store.old.vars ≡ trail.old.vars }
    requires hung { AreHung store.old trail.old }
    ensures some { IfSome result (λ lit. In lit lits.now × (¬ In (neg_ℤ lit) (trues trail.new.entries))) }
    ensures none { IfNone result ((top trail.new.entries ≡ 0) × AllFalse (trues trail.new.entries) lits.now) }
    ensures entries { trail.new.entries ≡ keep (top trail.new.entries) trail.old.entries }
    ensures kept { (but : ℕ) → IsKeptBut store.old trail.old but → IsKeptBut store.new trail.new but }
    ensures clauses { KeepsClauses store.old store.new }
    ensures watched { store.new.watched ≡ store.old.watched }
    ensures unparked { IsUnparked store.old → IsUnparked store.new }
    ensures stays { StaysWhereOpen trail.old.entries trail.new.entries lits.now }
    ensures vars { trail.new.vars ≡ trail.old.vars }
    ensures touched { trail.new.touched ≡ trail.old.touched }
    ensures trail { IsTrail trail.new.vars trail.new.entries }
{
    let level = level_of(trail, last.negated());
    if level == 0 {
        back_to(store, trail, 0);
        return None;
    }
    back_to(store, trail, level - 1);
    Some(last)
}

// Enters a clause of which this literal is not false.
fn enter_open(store: &mut Store, trail: &mut Trail, id: u64, lits: &[Lit], first: Lit)
    requires kept { IsKeptBut store.old trail.old id }
    requires unwatched { IsUnwatched store.old id lits.now }
    requires literals { AreLiterals trail.old.vars lits.now }
    requires has { In first lits.now }
    requires not_false { ¬ In (neg_ℤ first) (trues trail.old.entries) }
    ensures kept { IsKept store.new trail.new }
    ensures clauses { store.new.clauses ≡ store.old.clauses }
    ensures store_vars { store.new.vars ≡ store.old.vars }
    ensures unparked { IsUnparked store.old → IsUnparked store.new }
    ensures grows { Grows store.old.clauses (keep (top trail.new.entries) trail.old.entries) trail.new.entries }
    ensures loose { IsLooseBelow trail.old.entries (top trail.new.entries) lits.now }
    ensures stays { StaysWhereOpen trail.old.entries trail.new.entries lits.now }
    ensures vars { trail.new.vars ≡ trail.old.vars }
    ensures touched { trail.new.touched ≡ trail.old.touched }
    ensures trail { IsTrail trail.new.vars trail.new.entries }
{
    let _vars = trail.vars(); // It is a trail, also where nothing is forced.
    match other_open(trail, lits, first) {
        Some(second) => watch(store, trail, id, first, second),
        None => enter_forcing(store, trail, id, lits, first),
    }
}

// Enters a clause of which all other literals are false.
fn enter_forcing(store: &mut Store, trail: &mut Trail, id: u64, lits: &[Lit], first: Lit)
    requires kept { IsKeptBut store.old trail.old id }
    requires unwatched { IsUnwatched store.old id lits.now }
    requires literals { AreLiterals trail.old.vars lits.now }
    requires has { In first lits.now }
    requires not_false { ¬ In (neg_ℤ first) (trues trail.old.entries) }
    requires others { AllFalseBut (trues trail.old.entries) lits.now first }
    ensures kept { IsKept store.new trail.new }
    ensures clauses { store.new.clauses ≡ store.old.clauses }
    ensures store_vars { store.new.vars ≡ store.old.vars }
    ensures unparked { IsUnparked store.old → IsUnparked store.new }
    ensures grows { Grows store.old.clauses (keep (top trail.new.entries) trail.old.entries) trail.new.entries }
    ensures loose { IsLooseBelow trail.old.entries (top trail.new.entries) lits.now }
    ensures stays { StaysWhereOpen trail.old.entries trail.new.entries lits.now }
    ensures vars { trail.new.vars ≡ trail.old.vars }
    ensures touched { trail.new.touched ≡ trail.old.touched }
    ensures trail { IsTrail trail.new.vars trail.new.entries }
{
    match last_false(trail, lits, Some(first)) {
        Some(second) => {
            let level = level_of(trail, second.negated());
            force(store, trail, first, level, id);
            watch(store, trail, id, first, second);
        }
        None => force(store, trail, first, 0, id),
    }
}

// Has the clause force this literal at this level, unless it is true up to it already.
fn force(store: &mut Store, trail: &mut Trail, lit: Lit, level: u32, id: u64)
    requires vars { store.old.vars ≡ trail.old.vars }
    requires hung { AreHung store.old trail.old }
    requires literal { IsLiteral trail.old.vars lit }
    requires not_false { ¬ In (neg_ℤ lit) (trues trail.old.entries) }
    requires id { 0 < id }
    ensures forced { IsForcedAt trail.old.entries trail.new.entries lit level id }
    ensures kept { (but : ℕ) → IsKeptBut store.old trail.old but → IsKeptBut store.new trail.new but }
    ensures clauses { KeepsClauses store.old store.new }
    ensures watched { store.new.watched ≡ store.old.watched }
    ensures unparked { IsUnparked store.old → IsUnparked store.new }
    ensures vars { trail.new.vars ≡ trail.old.vars }
    ensures touched { trail.new.touched ≡ trail.old.touched }
    ensures trail { IsTrail trail.new.vars trail.new.entries }
{
    let _vars = trail.vars(); // It is a trail, also where nothing is forced.
    if !is_true_at(trail, lit, level) {
        back_to(store, trail, level);
        trail.assign(lit, id);
    }
}

// Whether the literal is true up to this level.
fn is_true_at(trail: &Trail, lit: Lit, level: u32) -> bool
    requires { IsLiteral trail.now.vars lit }
    ensures yes { result ≡ true → In lit (trues (keep level trail.now.entries)) }
    ensures no { result ≡ false → ¬ In lit (trues (keep level trail.now.entries)) }
{
    let _vars = trail.vars(); // No literal is both true and false.
    match trail.value(lit) {
        None => false,
        Some(true) => level_of(trail, lit) <= level,
        Some(false) => false,
    }
}

/// The level at which a literal became true.
pub fn level_of(trail: &Trail, lit: Lit) -> u32
    requires { In lit (trues trail.now.entries) }
    ensures there { (level : ℕ) → result ≤ level → In lit (trues (keep level trail.now.entries)) }
    ensures first { (level : ℕ) → In lit (trues (keep level trail.now.entries)) → result ≤ level }
    ensures within { result ≤ top trail.now.entries }
{
    let _vars = trail.vars(); // A variable has one place on a trail.
    trail.level(lit.var())
}

// Of the literals other than `but`, which are all false, the one that became so last.
fn last_false(trail: &Trail, clause: &[Lit], but: Option<Lit>) -> Option<Lit>
    requires { (lit : ℤ) → In lit clause.now → (but ≡ Some lit) ⊎ In (neg_ℤ lit) (trues trail.now.entries) }
    ensures some { IfSome result (λ lit. IsLast trail.now.entries clause.now but lit) }
    ensures none { IfNone result ((lit : ℤ) → In lit clause.now → but ≡ Some lit) }
{
    let mut last = None;
    for lit in clause {
        if !is_that(&but, *lit) {
            last = Some(later(trail, last, *lit));
        }
    }
    last
}

fn is_that(one: &Option<Lit>, lit: Lit) -> bool
    ensures yes { result ≡ true → one.now ≡ Some lit }
    ensures no { result ≡ false → one.now ≢ Some lit }
{
    match one {
        None => false,
        Some(that) => *that == lit,
    }
}

// The one of two literals that became false later.
fn later(trail: &Trail, last: Option<Lit>, lit: Lit) -> Lit
    requires last { IfSome last (λ m. In (neg_ℤ m) (trues trail.now.entries)) }
    requires lit { In (neg_ℤ lit) (trues trail.now.entries) }
    ensures one { (result ≡ lit) ⊎ (last ≡ Some result) }
    ensures over_lit { (level : ℕ) → In (neg_ℤ result) (trues (keep level trail.now.entries)) → In (neg_ℤ lit) (trues (keep level trail.now.entries)) }
    ensures over_last { IfSome last (λ m. (level : ℕ) → In (neg_ℤ result) (trues (keep level trail.now.entries)) → In (neg_ℤ m) (trues (keep level trail.now.entries))) }
{
    let Some(other) = last else {
        return lit;
    };
    if level_of(trail, other.negated()) < level_of(trail, lit.negated()) {
        lit
    } else {
        other
    }
}

// The first literal of the clause that is not false.
fn first_open(trail: &Trail, clause: &[Lit]) -> Option<Lit>
    requires { AreLiterals trail.now.vars clause.now }
    ensures has { IfSome result (λ lit. In lit clause.now) }
    ensures not_false { IfSome result (λ lit. ¬ In (neg_ℤ lit) (trues trail.now.entries)) }
    ensures none { IfNone result (AllFalse (trues trail.now.entries) clause.now) }
{
    for lit in clause {
        if !is_false(trail, *lit) {
            return Some(*lit);
        }
    }
    None
}

fn is_false(trail: &Trail, lit: Lit) -> bool
    requires { IsLiteral trail.now.vars lit }
    ensures yes { result ≡ true → In (neg_ℤ lit) (trues trail.now.entries) }
    ensures no { result ≡ false → ¬ In (neg_ℤ lit) (trues trail.now.entries) }
{
    let _vars = trail.vars(); // No literal is both true and false.
    match trail.value(lit) {
        None => false,
        Some(true) => false,
        Some(false) => true,
    }
}
