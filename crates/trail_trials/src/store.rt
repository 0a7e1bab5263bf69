//! Stores: clauses under ids, what they watch, and the lists of those that watch a literal.
//!
//! ```text
//! store 3                    a new store over three variables
//! add 1 -3                   adds a clause, and tells its id
//! add_idle 2 2 -2            adds one that is not live
//! reserve 2 3                makes room for two clauses with three literals together
//! reserved 1 2 : -1          makes room for these clauses, one or two, and adds them
//! forget 1                   the clause is live no more
//! count, clause 1            how many clauses there are; a clause
//! watch 1 1 -3, watch 1      the clause watches these literals; it watches none
//! set_next 1 0 2             behind clause 1 in the list of its first watched literal comes clause 2
//! set_head -2 1              the list of -2 begins with clause 1; likewise set_tail, set_parked
//! set_false 1                clause 1 is false at level 0
//! set_position 1 3           a search for a literal of the clause is to begin at place 3
//! watched 1, next 1 0, head -2, tail -2, parked -2, false_id, position 1      what was set
//! place_of 1 -2              by which place the clause watches the literal, and what it watches by the other
//! third 1 7 -1               the third literal of a clause of three
//! open 1 64 : 2              a literal of the clause but 64 that is not false where 2 is true, by its words
//! ```
ghost use Rattle.std.specs.Prelude.{◌≡◌, ◌<◌, ◌^◌, IfSome};
ghost use Rattle.sat_base.specs.Literals.{AreLiterals};
ghost use Rattle.clause_store.specs.Clauses.{IsId};
ghost use Rattle.clause_store.specs.Links.{IsLink};

use crate::words::words_at;
use clause_store::Store;
use sat_base::Lit;
use std::alloc::{AllocError, Global};
use trial_lits::{
    add, add_lit, behind, lit_at, lits_at, tell, tell_id, tell_lit, tell_lits, tell_number, vars_at,
};
use trial_script::{Player, Step, hold, known, show};

/// A store, once one was made.
#[derive(Drop)]
pub struct StorePlayer {
    pub store: Option<Store>,
}

impl StorePlayer {
    fn make(&mut self, alloc: Global, step: &Step<'_>) -> Result<bool, AllocError> {
        match vars_at(step, 1) {
            Some(vars) => hold(&mut self.store, Store::new(alloc, vars)),
            None => Ok(false),
        }
    }
}

impl Player for StorePlayer {
    fn begin(&mut self, _alloc: Global) -> Result<(), AllocError> {
        self.store = None;
        Ok(())
    }

    fn call(
        &mut self,
        alloc: Global,
        step: &Step<'_>,
        out: &mut String,
    ) -> Result<bool, AllocError> {
        if step.word(0) == "store" {
            return self.make(alloc, step);
        }
        match &mut self.store {
            Some(store) => on_store(alloc, store, step, out),
            None => Ok(false),
        }
    }
}

fn on_store(
    alloc: Global,
    store: &mut Store,
    step: &Step<'_>,
    out: &mut String,
) -> Result<bool, AllocError> {
    match step.word(0) {
        "add" => add_clause(alloc, store, step, out, true),
        "add_idle" => add_clause(alloc, store, step, out, false),
        "reserve" => reserve(store, step, out),
        "reserved" => reserved(alloc, store, step, out),
        "open" => open(alloc, store, step, out),
        _ if change(store, step) => Ok(true),
        _ => read(store, step, out),
    }
}

/// Adds a clause, and tells its id.
pub fn add_clause(
    alloc: Global,
    store: &mut Store,
    step: &Step<'_>,
    out: &mut String,
    live: bool,
) -> Result<bool, AllocError>
    ensures { store.new.vars ≡ store.old.vars }
{
    match lits_at(alloc, step, 1, store.vars())? {
        Some(lits) => tell_added(store.add(&lits, live), out),
        None => Ok(false),
    }
}

fn tell_added(id: Result<u64, AllocError>, out: &mut String) -> Result<bool, AllocError> {
    known(tell_number(out, "id", id?))
}

fn reserve(store: &mut Store, step: &Step<'_>, out: &mut String) -> Result<bool, AllocError> {
    let (Some(count), Some(literals)) = (step.amount(1), step.amount(2)) else {
        return Ok(false);
    };
    show(
        match store.reserve(count, literals) {
            Ok(()) => "room",
            Err(_) => "no room",
        },
        out,
    )
}

// Makes room for one clause, or for two, and adds them.
fn reserved(
    alloc: Global,
    store: &mut Store,
    step: &Step<'_>,
    out: &mut String,
) -> Result<bool, AllocError> {
    let vars = store.vars();
    let Some(first) = lits_at(alloc, step, 1, vars)? else {
        return Ok(false);
    };
    let Some(second) = lits_at(alloc, step, behind(step, ":"), vars)? else {
        return Ok(false);
    };
    if second.is_empty() {
        add_one(store, &first, out)
    } else {
        add_two(store, &first, &second, out)
    }
}

fn add_one(store: &mut Store, lits: &[Lit], out: &mut String) -> Result<bool, AllocError>
    requires { AreLiterals store.old.vars lits.now }
{
    store.reserve(1, lits.len() as u64)?;
    known(tell_number(out, "ids", store.add_reserved(lits, true)))
}

fn add_two(
    store: &mut Store,
    first: &[Lit],
    second: &[Lit],
    out: &mut String,
) -> Result<bool, AllocError>
    requires first { AreLiterals store.old.vars first.now }
    requires second { AreLiterals store.old.vars second.now }
{
    let Some(literals) = first.len().checked_add(second.len()) else {
        return Err(AllocError);
    };
    store.reserve(2, literals as u64)?;
    let one = store.add_reserved(first, true);
    let other = store.add_reserved(second, true);
    known(writeln!(out, "ids {one} {other}"))
}

/// The id of a clause, at this place of a call.
pub fn clause_at(store: &Store, step: &Step<'_>, at: usize) -> Option<u64>
    ensures { IfSome result (IsId store.now.clauses) }
{
    match step.amount(at) {
        Some(id) if id > 0 && id <= store.len() => Some(id),
        _ => None,
    }
}

// Which link a call sets: to a clause, at this place of the call, or to none.
fn link_at(store: &Store, step: &Step<'_>, at: usize) -> Option<u64>
    ensures { IsLink store.now result }
{
    clause_at(store, step, at)
}

// Which of the two watched literals of a clause is meant, at this place of a call.
fn place_at(step: &Step<'_>, at: usize) -> Option<u32>
    ensures { IfSome result (λ place. place < 2) }
{
    match step.count(at) {
        Some(place) if place < 2 => Some(place),
        _ => None,
    }
}

// Changes the store, where the call says how and its condition holds.
fn change(store: &mut Store, step: &Step<'_>) -> bool {
    match step.word(0) {
        "set_head" | "set_tail" | "set_parked" => set_end(store, step),
        "set_false" => {
            store.set_false_id(step.amount(1));
            true
        }
        _ => match clause_at(store, step, 1) {
            Some(id) => change_clause(store, id, step),
            None => false,
        },
    }
}

fn change_clause(store: &mut Store, id: u64, step: &Step<'_>) -> bool
    requires { IsId store.old.clauses id }
{
    match step.word(0) {
        "forget" => {
            store.forget(id);
            true
        }
        "watch" => watch(store, id, step),
        "set_next" => set_next(store, id, step),
        "set_position" => set_position(store, id, step),
        _ => false,
    }
}

fn set_next(store: &mut Store, id: u64, step: &Step<'_>) -> bool
    requires { IsId store.old.clauses id }
{
    let Some(place) = place_at(step, 2) else {
        return false;
    };
    let link = link_at(store, step, 3);
    store.set_next(id, place, link);
    true
}

fn set_position(store: &mut Store, id: u64, step: &Step<'_>) -> bool
    requires { IsId store.old.clauses id }
{
    let Some(position) = step.count(2) else {
        return false;
    };
    store.set_position(id, position as usize);
    true
}

fn watch(store: &mut Store, id: u64, step: &Step<'_>) -> bool
    requires { IsId store.old.clauses id }
{
    if step.word(2) == "" {
        store.set_watched(id, None);
        return true;
    }
    let vars = store.vars();
    let (Some(first), Some(second)) = (lit_at(step, 2, vars), lit_at(step, 3, vars)) else {
        return false;
    };
    store.set_watched(id, Some((first, second)));
    true
}

// Sets an end of the list of a literal.
fn set_end(store: &mut Store, step: &Step<'_>) -> bool {
    let Some(lit) = lit_at(step, 1, store.vars()) else {
        return false;
    };
    let link = link_at(store, step, 2);
    match step.word(0) {
        "set_head" => store.set_head(lit, link),
        "set_tail" => store.set_tail(lit, link),
        _ => store.set_parked(lit, link),
    }
    true
}

/// Tells what is kept of a literal, or of a clause.
pub fn read(store: &Store, step: &Step<'_>, out: &mut String) -> Result<bool, AllocError> {
    match step.word(0) {
        "count" => known(tell_number(out, "clauses", store.len())),
        "false_id" => known(tell_id(out, "false", store.false_id())),
        "head" | "tail" | "parked" => read_end(store, step, out),
        _ => read_clause(store, step, out),
    }
}

fn read_end(store: &Store, step: &Step<'_>, out: &mut String) -> Result<bool, AllocError> {
    let Some(lit) = lit_at(step, 1, store.vars()) else {
        return Ok(false);
    };
    known(match step.word(0) {
        "head" => tell_id(out, "head", store.head(lit)),
        "tail" => tell_id(out, "tail", store.tail(lit)),
        _ => tell_id(out, "parked", store.parked(lit)),
    })
}

fn read_clause(store: &Store, step: &Step<'_>, out: &mut String) -> Result<bool, AllocError> {
    let Some(id) = clause_at(store, step, 1) else {
        return Ok(false);
    };
    match step.word(0) {
        "clause" => known(tell_clause(store, id, out)),
        "position" => known(tell_number(out, "position", store.position(id) as u64)),
        "watched" => known(tell_watched(store.watched(id), out)),
        "next" => tell_next(store, step, id, out),
        _ => read_watch(store, step, id, out),
    }
}

fn tell_clause(store: &Store, id: u64, out: &mut String) -> Result<(), AllocError>
    requires { IsId store.now.clauses id }
{
    let word = if store.is_live(id) {
        "live :"
    } else {
        "idle :"
    };
    tell_lits(out, word, store.lits(id))
}

fn tell_watched(pair: Option<(Lit, Lit)>, out: &mut String) -> Result<(), AllocError> {
    match pair {
        Some((first, second)) => {
            add_lit(out, "watches", Some(first))?;
            tell_lit(out, "", Some(second))
        }
        None => tell(out, "watches none"),
    }
}

fn tell_next(store: &Store, step: &Step<'_>, id: u64, out: &mut String) -> Result<bool, AllocError>
    requires { IsId store.now.clauses id }
{
    match place_at(step, 2) {
        Some(place) => known(tell_id(out, "next", store.next(id, place))),
        None => Ok(false),
    }
}

fn read_watch(store: &Store, step: &Step<'_>, id: u64, out: &mut String) -> Result<bool, AllocError>
    requires { IsId store.now.clauses id }
{
    let Some(lit) = lit_at(step, 2, store.vars()) else {
        return Ok(false);
    };
    match step.word(0) {
        "place_of" => tell_place(store, id, lit, out),
        "third" => tell_third(store, step, id, lit, out),
        _ => Ok(false),
    }
}

fn tell_place(store: &Store, id: u64, lit: Lit, out: &mut String) -> Result<bool, AllocError>
    requires { IsId store.now.clauses id }
{
    if store.watched(id).is_none() {
        return Ok(false);
    }
    let (place, other) = store.place_of(id, lit);
    add(out, "place", u64::from(place))?;
    known(tell_lit(out, " beside", Some(other)))
}

fn tell_third(
    store: &Store,
    step: &Step<'_>,
    id: u64,
    first: Lit,
    out: &mut String,
) -> Result<bool, AllocError>
    requires { IsId store.now.clauses id }
{
    let Some(second) = lit_at(step, 3, store.vars()) else {
        return Ok(false);
    };
    known(tell_lit(out, "third", store.third(id, first, second)))
}

fn open(
    alloc: Global,
    store: &Store,
    step: &Step<'_>,
    out: &mut String,
) -> Result<bool, AllocError> {
    let (Some(id), Some(other)) = (clause_at(store, step, 1), lit_at(step, 2, 64)) else {
        return Ok(false);
    };
    let Some(trues) = words_at(alloc, step, behind(step, ":"))? else {
        return Ok(false);
    };
    known(match store.words(id) {
        Some(words) => tell_lit(out, "open", words.open(trues, other)),
        None => tell(out, "no words"),
    })
}
