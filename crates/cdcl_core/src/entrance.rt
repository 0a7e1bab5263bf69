//! Learnt clauses.
//!
//! A learnt clause comes where its first literal has just lost its value and all others are false. It forces that
//! literal, and watches it and one that became false last: whenever the first one loses its value again, so does the
//! other.
ghost use Rattle.std.specs.Prelude.{◌≡◌, ◌≢◌, ◌⊎◌, ◌<◌, ◌∷◌, true, false, Some, None, neg_ℤ, IfSome, IfNone};
ghost use Rattle.sat_base.specs.Members.{In};
ghost use Rattle.sat_base.specs.Literals.{IsLiteral};
ghost use Rattle.sat_base.specs.Units.{AllFalseBut};
ghost use Rattle.trail_book.specs.Trail.{trues, top};
ghost use Rattle.propagate.specs.Entrance.{IsUnwatched};
ghost use Rattle.propagate.specs.Watches.{IsKeptBut, IsKept};
ghost use Rattle.learn_step.specs.Reasons.{before_last};
ghost use Rattle.cdcl_core.specs.Entrance.{IsLatest, IsAsserting};

use clause_store::Store;
use propagate::watch;
use sat_base::Lit;
use trail_book::Trail;

// Whether a literal became false at the top level.
fn is_latest(trail: &Trail, lit: Lit) -> bool
    requires level { 0 < top trail.now.entries }
    requires is_false { In (neg_ℤ lit) (trues trail.now.entries) }
    ensures yes { result ≡ true → ¬ In (neg_ℤ lit) (trues (before_last trail.now.entries)) }
    ensures no { result ≡ false → In (neg_ℤ lit) (trues (before_last trail.now.entries)) }
{
    let _vars = trail.vars(); // A variable has one place on a trail.
    trail.level(lit.var()) == trail.top()
}

fn is_second(trail: &Trail, lit: Lit, first: Lit) -> bool
    requires level { 0 < top trail.now.entries }
    requires is_false { (lit ≡ first) ⊎ In (neg_ℤ lit) (trues trail.now.entries) }
    ensures yes { result ≡ true → (lit ≢ first) × (¬ In (neg_ℤ lit) (trues (before_last trail.now.entries))) }
    ensures no { result ≡ false → (lit ≡ first) ⊎ In (neg_ℤ lit) (trues (before_last trail.now.entries)) }
{
    if lit == first {
        return false;
    }
    is_latest(trail, lit)
}

// A literal other than this one that became false at the top level, where that is above level 0.
fn latest(trail: &Trail, clause: &[Lit], first: Lit) -> Option<Lit>
    requires { AllFalseBut (trues trail.now.entries) clause.now first }
    ensures some { IfSome result (λ lit. IsLatest trail.now.entries clause.now first lit × (0 < top trail.now.entries)) }
    ensures none { IfNone result (0 < top trail.now.entries → AllFalseBut (trues (before_last trail.now.entries)) clause.now first) }
{
    if trail.top() == 0 {
        return None;
    }
    for lit in clause {
        if is_second(trail, *lit, first) {
            return Some(*lit);
        }
    }
    None
}

/// Has a learnt clause force its first literal, and be watched or settled.
pub fn enter_learnt(store: &mut Store, trail: &mut Trail, id: u64, lits: &[Lit], first: Lit)
    requires kept { IsKeptBut store.old trail.old id }
    requires unwatched { IsUnwatched store.old id lits.now }
    requires literal { IsLiteral trail.old.vars first }
    requires asserting { IsAsserting trail.old.entries lits.now first }
    ensures kept { IsKept store.new trail.new }
    ensures clauses { store.new.clauses ≡ store.old.clauses }
    ensures store_vars { store.new.vars ≡ store.old.vars }
    ensures entries { trail.new.entries ≡ record { lit = first; reason = Some id; unit = None } ∷ trail.old.entries }
    ensures vars { trail.new.vars ≡ trail.old.vars }
    ensures touched { trail.new.touched ≡ trail.old.touched }
{
    let second = latest(trail, lits, first);
    trail.assign(first, id);
    if let Some(second) = second {
        watch(store, trail, id, first, second);
    }
}
