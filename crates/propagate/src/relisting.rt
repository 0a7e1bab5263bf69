//! How the lists are built anew.
//!
//! A clause that is forgotten still stands in the lists of the two literals that it watches, and to take it out of each
//! would mean to walk there. So where many were forgotten the lists are built anew: all are empty at first, and then each
//! live clause that is watched comes to its two lists, in the order of the ids. What a clause watches stays, so values,
//! levels and what was propagated are not looked at. This costs one look at each clause, and takes no memory.
ghost use Rattle.std.specs.Prelude.{◌≡◌, ℤ, ◌+◌, ◌*◌, true, Some};
ghost use Rattle.sat_base.specs.Literals.{IsLiteral};
ghost use Rattle.clause_store.specs.Clauses.{clause_at, IsId};
ghost use Rattle.clause_store.specs.Links.{watched_at, head_of, tail_of, park_of};
ghost use Rattle.propagate.specs.Watches.{IsUnparked, IsKept, KeepsClauses};
ghost use Rattle.propagate.specs.Rebuild.{IsStale, IsRelisted};

use crate::lists::append;
use clause_store::Store;
use sat_base::Lit;
use trail_book::Trail;

/// Builds the lists anew, without the clauses that are not live. The trail is not looked at.
pub fn rebuild(store: &mut Store, trail: &Trail)
    requires { IsStale store.old trail.now }
    ensures kept { IsKept store.new trail.now }
    ensures unparked { IsUnparked store.new }
    ensures clauses { KeepsClauses store.old store.new }
{
    clear(store);
    let mut id = 0;
    while id < store.len() {
        id += 1;
        relist(store, trail, id);
    }
}

// Empties all lists.
fn clear(store: &mut Store)
    ensures heads { (lit : ℤ) → IsLiteral store.old.vars lit → head_of store.new lit ≡ 0 }
    ensures tails { (lit : ℤ) → IsLiteral store.old.vars lit → tail_of store.new lit ≡ 0 }
    ensures parks { (lit : ℤ) → IsLiteral store.old.vars lit → park_of store.new lit ≡ 0 }
    ensures rest { store.new ≡ record store.old { heads = store.new.heads; tails = store.new.tails; parks = store.new.parks } }
{
    let mut var = 0;
    while var < store.vars() {
        var += 1;
        let lit = Lit::new(var as i32);
        clear_list(store, lit);
        clear_list(store, lit.negated());
    }
}

fn clear_list(store: &mut Store, lit: Lit)
    requires { IsLiteral store.old.vars lit }
    ensures head { head_of store.new lit ≡ 0 }
    ensures tail { tail_of store.new lit ≡ 0 }
    ensures park { park_of store.new lit ≡ 0 }
    ensures heads { (other : ℤ) → head_of store.old other ≡ 0 → head_of store.new other ≡ 0 }
    ensures tails { (other : ℤ) → tail_of store.old other ≡ 0 → tail_of store.new other ≡ 0 }
    ensures parks { (other : ℤ) → park_of store.old other ≡ 0 → park_of store.new other ≡ 0 }
    ensures rest { store.new ≡ record store.old { heads = store.new.heads; tails = store.new.tails; parks = store.new.parks } }
{
    store.set_head(lit, None);
    store.set_tail(lit, None);
    store.set_parked(lit, None);
}

// Puts a clause at the end of the lists of what it watches, or has it watch nothing where it is not live.
fn relist(store: &mut Store, trail: &Trail, id: u64)
    requires lists { IsRelisted store.old trail.now (2 * id) }
    requires id { IsId store.old.clauses id }
    ensures lists { IsRelisted store.new trail.now (2 * id + 2) }
    ensures clauses { KeepsClauses store.old store.new }
{
    let Some((first, second)) = store.watched(id) else {
        return;
    };
    if store.is_live(id) {
        append_both(store, trail, id, first, second);
    } else {
        store.set_watched(id, None);
    }
}

// Puts a live clause at the end of the lists of the two literals that it watches.
fn append_both(store: &mut Store, trail: &Trail, id: u64, first: Lit, second: Lit)
    requires lists { IsRelisted store.old trail.now (2 * id) }
    requires id { IsId store.old.clauses id }
    requires live { (clause_at store.old.clauses id).live ≡ true }
    requires watched { watched_at store.old id ≡ Some (first, second) }
    ensures lists { IsRelisted store.new trail.now (2 * id + 2) }
    ensures clauses { KeepsClauses store.old store.new }
{
    let _vars = store.vars(); // The literals of its clauses are over the variables.
    append(store, id, 0, first);
    append(store, id, 1, second);
}
