//! Activity.
//!
//! The variables of a conflict are bumped, once each: those of the learnt clause, and those of the top level that were
//! resolved away to come to it (VSIDS: Moskewicz and others 2001; this set: Eén and Sörensson 2003). The hints name the clauses
//! that were resolved. Each of them but the last forced a literal, which is the one that is true. What was resolved away
//! because it was redundant, or of level 0, had no part in the conflict.
ghost use Rattle.std.specs.Prelude.{◌≡◌, ℕ};
ghost use Rattle.sat_base.specs.Members.{In};
ghost use Rattle.sat_base.specs.Literals.{AreLiterals};
ghost use Rattle.clause_store.specs.Clauses.{IsId};
ghost use Rattle.trail_book.specs.Trail.{IsReordered};

use clause_store::Store;
use sat_base::Lit;
use trail_book::Trail;

/// Bumps the variables of a conflict from which a clause was learnt, while the trail is as it was there.
pub fn bump_conflict(store: &Store, trail: &mut Trail, lits: &[Lit], hints: &[u64])
    requires vars { store.now.vars ≡ trail.old.vars }
    requires literals { AreLiterals trail.old.vars lits.now }
    requires hints { (id : ℕ) → In id hints.now → IsId store.now.clauses id }
    ensures { IsReordered trail.old trail.new }
{
    bump_all(trail, lits);
    for id in hints {
        bump_forced(trail, store.lits(*id));
    }
    trail.grow();
}

// Bumps the variables of these literals.
fn bump_all(trail: &mut Trail, lits: &[Lit])
    requires { AreLiterals trail.old.vars lits.now }
    ensures { IsReordered trail.old trail.new }
{
    for lit in lits {
        trail.bump(lit.var());
    }
}

// Bumps the variable of the literal that is true, if it is of the top level.
fn bump_forced(trail: &mut Trail, lits: &[Lit])
    requires { AreLiterals trail.old.vars lits.now }
    ensures { IsReordered trail.old trail.new }
{
    for lit in lits {
        if trail.value(*lit) == Some(true) {
            if trail.level(lit.var()) == trail.top() {
                trail.bump(lit.var());
            }
            return;
        }
    }
}
