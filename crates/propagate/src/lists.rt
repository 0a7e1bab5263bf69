//! How a watch comes to a list, and leaves one.
//!
//! A list begins at the head of its literal, and goes on from each of its clauses by the place that watches the literal.
//! A watch comes at the end, so that clauses are visited in the order in which they came.
ghost use Rattle.std.specs.Prelude.{◌≡◌, ◌≢◌, ℕ, ◌+◌, ◌*◌, ◌<◌, None, IfSome};
ghost use Rattle.sat_base.specs.Literals.{IsLiteral};
ghost use Rattle.clause_store.specs.Clauses.{IsId};
ghost use Rattle.clause_store.specs.Links.{watched_at, link_of, tail_of, IsLink};
ghost use Rattle.propagate.specs.Walk.{IsNode, Continues, Unlinks, Appends, Parks};

use clause_store::Store;
use sat_base::Lit;

/// Has the list of a literal go on from a clause of it, or begin where there is none, with another clause.
pub fn set_after(store: &mut Store, lit: Lit, before: Option<u64>, to: Option<u64>)
    requires lit { IsLiteral store.old.vars lit }
    requires before { IfSome before (λ id. IsId store.old.clauses id × (watched_at store.old id ≢ None)) }
    requires to { IsLink store.old to }
    ensures goes_on { (node : ℕ) → IsNode store.old lit (link_of before) node → Continues store.old store.new lit node (link_of to) }
    ensures rest { store.new ≡ record store.old { nexts = store.new.nexts; heads = store.new.heads } }
{
    match before {
        None => store.set_head(lit, to),
        Some(id) => {
            let (place, _) = store.place_of(id, lit);
            store.set_next(id, place, to);
        }
    }
}

/// Has the list of a literal go on with another clause, or end.
pub fn unlink(store: &mut Store, lit: Lit, before: Option<u64>, to: Option<u64>)
    requires lit { IsLiteral store.old.vars lit }
    requires before { IfSome before (λ id. IsId store.old.clauses id × (watched_at store.old id ≢ None)) }
    requires to { IsLink store.old to }
    requires to_one { IfSome to (λ id. 0 < id) }
    ensures unlinks { (node : ℕ) → IsNode store.old lit (link_of before) node → Unlinks store.old store.new lit node (link_of to) }
    ensures rest { store.new ≡ record store.old { nexts = store.new.nexts; heads = store.new.heads; tails = store.new.tails } }
{
    set_after(store, lit, before, to);
    if to.is_none() {
        store.set_tail(lit, before);
    }
}

/// Puts a place of a clause at the end of the list of a literal, of which it is not.
pub fn append(store: &mut Store, id: u64, place: u32, lit: Lit)
    requires id { IsId store.old.clauses id }
    requires place { place < 2 }
    requires lit { IsLiteral store.old.vars lit }
    requires last { tail_of store.old lit ≢ 0 → watched_at store.old (tail_of store.old lit) ≢ None }
    ensures appends { (node : ℕ) → IsNode store.old lit (tail_of store.old lit) node → Appends store.old store.new lit node (2 * id + place) }
    ensures rest { store.new ≡ record store.old { nexts = store.new.nexts; heads = store.new.heads; tails = store.new.tails } }
{
    let last = store.tail(lit);
    set_after(store, lit, last, Some(id));
    store.set_next(id, place, None);
    store.set_tail(lit, Some(id));
}

/// Parks a place of a clause, which is of no list, under a literal.
pub fn park(store: &mut Store, id: u64, place: u32, under: Lit)
    requires id { IsId store.old.clauses id }
    requires place { place < 2 }
    requires under { IsLiteral store.old.vars under }
    ensures parks { Parks store.old store.new under (2 * id + place) }
    ensures rest { store.new ≡ record store.old { nexts = store.new.nexts; parks = store.new.parks } }
{
    let first = store.parked(under);
    store.set_next(id, place, first);
    store.set_parked(under, Some(id));
}

/// The pair that has one literal at this place, and another at the other.
pub fn paired(place: u32, lit: Lit, other: Lit) -> (Lit, Lit)
    ensures first { place ≡ 0 → (result.0 ≡ lit) × (result.1 ≡ other) }
    ensures second { place ≢ 0 → (result.0 ≡ other) × (result.1 ≡ lit) }
{
    if place == 0 {
        (lit, other)
    } else {
        (other, lit)
    }
}
