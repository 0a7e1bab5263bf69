//! What clauses watch, and the lists of the watched literals.
//!
//! These calls read and write one place each, and take no memory. That a list has just the clauses that watch its literal
//! is for the callers, who move a watch in several steps. At first each of them reads none.
ghost use Rattle.std.specs.Prelude.{◌≡◌, ◌≢◌, ℕ, ℤ, ◌+◌, ◌-◌, ◌*◌, ◌<◌, ◌≤◌, ◌^◌, Some, None, IfSome, length};
ghost use Rattle.sat_base.specs.Literals.{IsLiteral};
ghost use Rattle.clause_store.specs.Clauses.{Clauses, IsId};
ghost use Rattle.clause_store.specs.Links.{watched_at, watch_of, next_of, row_of, head_of, tail_of, park_of, link_of, IsLink};

use crate::store::Store;
use sat_base::Lit;

/// The row of a literal in a table of two rows for each variable.
pub fn row_of(lit: Lit) -> usize
    ensures row { result ≡ row_of lit }
    ensures small { result < 2 ^ 32 }
{
    if lit.is_positive() {
        2 * lit.var() as usize
    } else {
        2 * lit.var() as usize + 1
    }
}

fn id_or_none(id: u64) -> Option<u64>
    ensures id { link_of result ≡ id }
    ensures from_one { IfSome result (λ id. 0 < id) }
{
    if id == 0 { None } else { Some(id) }
}

fn number_of(id: Option<u64>) -> u64
    ensures { result ≡ link_of id }
{
    match id {
        None => 0,
        Some(id) => id,
    }
}

impl Store {
    /// What the clause watches, if it is watched.
    pub fn watched(&self, id: u64) -> Option<(Lit, Lit)>
        requires { IsId self.now.clauses id }
        ensures { result ≡ watched_at self.now id }
    {
        let record = &self.records[(id - 1) as usize];
        if record.shape.is_watched() {
            Some((record.watched[0], record.watched[1]))
        } else {
            None
        }
    }

    /// By which place a clause that is watched watches this literal, if by either, and what it watches by the other.
    pub fn place_of(&self, id: u64, lit: Lit) -> (u32, Lit)
        requires id { IsId self.now.clauses id }
        requires watched { watched_at self.now id ≢ None }
        ensures place { result.0 < 2 }
        ensures first { result.0 ≡ 0 → watch_of self.now (2 * id) ≡ lit }
        ensures second { result.0 ≡ 1 → watch_of self.now (2 * id) ≢ lit }
        ensures other { result.1 ≡ watch_of self.now (2 * id + (1 - result.0)) }
        ensures over { IsLiteral self.now.vars result.1 }
    {
        let record = &self.records[(id - 1) as usize];
        let place = u32::from(record.watched[0] != lit);
        (place, record.watched[(1 - place) as usize])
    }

    /// The clause behind this one in the list of what it watches by a place.
    pub fn next(&self, id: u64, place: u32) -> Option<u64>
        requires id { IsId self.now.clauses id }
        requires place { place < 2 }
        ensures next { link_of result ≡ next_of self.now (2 * id + place) }
        ensures from_one { IfSome result (λ next. 0 < next) }
        ensures within { IsLink self.now result }
    {
        let record = &self.records[(id - 1) as usize];
        id_or_none(u64::from(record.next[place as usize]))
    }

    /// The first clause in the list of a literal.
    pub fn head(&self, lit: Lit) -> Option<u64>
        requires { IsLiteral self.now.vars lit }
        ensures head { link_of result ≡ head_of self.now lit }
        ensures from_one { IfSome result (λ id. 0 < id) }
        ensures within { IsLink self.now result }
    {
        id_or_none(u64::from(self.heads[row_of(lit)]))
    }

    /// The last clause in the list of a literal.
    pub fn tail(&self, lit: Lit) -> Option<u64>
        requires { IsLiteral self.now.vars lit }
        ensures tail { link_of result ≡ tail_of self.now lit }
        ensures from_one { IfSome result (λ id. 0 < id) }
        ensures within { IsLink self.now result }
    {
        id_or_none(u64::from(self.tails[row_of(lit)]))
    }

    /// Has the clause watch this pair, or nothing. It changes no list.
    pub fn set_watched(&mut self, id: u64, pair: Option<(Lit, Lit)>)
        requires id { IsId self.old.clauses id }
        requires pair { IfSome pair (λ lits. IsLiteral self.old.vars lits.0 × IsLiteral self.old.vars lits.1) }
        ensures set { watched_at self.new id ≡ pair }
        ensures others { (i : ℕ) → i ≢ id → watched_at self.new i ≡ watched_at self.old i }
        ensures rest { self.new ≡ record self.old { watched = self.new.watched } }
    {
        match pair {
            Some((first, second)) => self.watch(id, first, second),
            None => self.unwatch(id),
        }
    }

    fn watch(&mut self, id: u64, first: Lit, second: Lit)
        requires id { IsId self.old.clauses id }
        requires first { IsLiteral self.old.vars first }
        requires second { IsLiteral self.old.vars second }
        ensures set { watched_at self.new id ≡ Some (first, second) }
        ensures others { (i : ℕ) → i ≢ id → watched_at self.new i ≡ watched_at self.old i }
        ensures rest { self.new ≡ record self.old { watched = self.new.watched } }
    {
        let record = &mut self.records[(id - 1) as usize];
        record.watched[0] = first;
        record.watched[1] = second;
        record.shape = record.shape.watched();
    }

    fn unwatch(&mut self, id: u64)
        requires { IsId self.old.clauses id }
        ensures set { watched_at self.new id ≡ None }
        ensures others { (i : ℕ) → i ≢ id → watched_at self.new i ≡ watched_at self.old i }
        ensures rest { self.new ≡ record self.old { watched = self.new.watched } }
    {
        let record = &mut self.records[(id - 1) as usize];
        record.shape = record.shape.unwatched();
    }

    /// Has the list of what the clause watches by a place go on with this clause, or end.
    pub fn set_next(&mut self, id: u64, place: u32, to: Option<u64>)
        requires id { IsId self.old.clauses id }
        requires place { place < 2 }
        requires to { IsLink self.old to }
        ensures set { next_of self.new (2 * id + place) ≡ link_of to }
        ensures others { (node : ℕ) → node ≢ 2 * id + place → next_of self.new node ≡ next_of self.old node }
        ensures rest { self.new ≡ record self.old { nexts = self.new.nexts } }
    {
        let next = number_of(to);
        let record = &mut self.records[(id - 1) as usize];
        record.next[place as usize] = next as u32;
    }

    /// Has the list of a literal begin with this clause, or be empty.
    pub fn set_head(&mut self, lit: Lit, to: Option<u64>)
        requires lit { IsLiteral self.old.vars lit }
        requires to { IsLink self.old to }
        ensures set { head_of self.new lit ≡ link_of to }
        ensures others { (other : ℤ) → other ≢ lit → head_of self.new other ≡ head_of self.old other }
        ensures rest { self.new ≡ record self.old { heads = self.new.heads } }
    {
        let head = &mut self.heads[row_of(lit)];
        *head = number_of(to) as u32;
    }

    /// Keeps this clause as the last one in the list of a literal, or none.
    pub fn set_tail(&mut self, lit: Lit, to: Option<u64>)
        requires lit { IsLiteral self.old.vars lit }
        requires to { IsLink self.old to }
        ensures set { tail_of self.new lit ≡ link_of to }
        ensures others { (other : ℤ) → other ≢ lit → tail_of self.new other ≡ tail_of self.old other }
        ensures rest { self.new ≡ record self.old { tails = self.new.tails } }
    {
        let tail = &mut self.tails[row_of(lit)];
        *tail = number_of(to) as u32;
    }

    /// The first clause that is parked under a literal.
    pub fn parked(&self, lit: Lit) -> Option<u64>
        requires { IsLiteral self.now.vars lit }
        ensures first { link_of result ≡ park_of self.now lit }
        ensures from_one { IfSome result (λ id. 0 < id) }
        ensures within { IsLink self.now result }
    {
        id_or_none(u64::from(self.parks[row_of(lit)]))
    }

    /// Has this clause be the first one that is parked under a literal, or none.
    pub fn set_parked(&mut self, lit: Lit, to: Option<u64>)
        requires lit { IsLiteral self.old.vars lit }
        requires to { IsLink self.old to }
        ensures set { park_of self.new lit ≡ link_of to }
        ensures others { (other : ℤ) → other ≢ lit → park_of self.new other ≡ park_of self.old other }
        ensures rest { self.new ≡ record self.old { parks = self.new.parks } }
    {
        let first = &mut self.parks[row_of(lit)];
        *first = number_of(to) as u32;
    }

    /// The clause that was last kept as false at level 0.
    pub fn false_id(&self) -> Option<u64>
        ensures id { link_of result ≡ self.now.false_id }
        ensures from_one { IfSome result (λ id. 0 < id) }
    {
        id_or_none(self.false_id)
    }

    /// Keeps the id of a clause that is false at level 0, or none.
    pub fn set_false_id(&mut self, id: Option<u64>)
        ensures { self.new ≡ record self.old { false_id = link_of id } }
    {
        self.false_id = number_of(id);
    }
}
