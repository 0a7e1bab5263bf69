//! Clauses under their ids.
//!
//! The literals of all clauses stand one clause after the other in one list, and a record of each clause has its id, and
//! where its own literals begin and end. The ids ascend: a clause is looked for at the place where it stands if no id is
//! left out, and else by halving.
ghost use Rattle.std.specs.Prelude.{◌≡◌, ℕ, ◌+◌, ◌<◌, ◌≤◌, ◌^◌, [], ◌∷◌, ◌++◌, length, take, IfOk, IfSome, IfNone, OnOk, OnErr, IsOk};
ghost use Rattle.std.specs.Option.{option_copied};
ghost use Rattle.sat_base.specs.Literals.{AreLiterals};
ghost use Rattle.sat_base.specs.Derivation.{clause_of};
ghost use Rattle.lrat_check.specs.Refusal.{last_id};
ghost use Rattle.lrat_check.specs.State.{HasRoomFor, IdsAscend};
ghost use Rattle.lrat_check.specs.Ids.{Ascend, IsAt, HasNoId};

use sat_base::Lit;
use std::alloc::{AllocError, Global};
use std::marker::Model;

/// The id of a clause, and where its literals stand.
#[derive(Clone, Copy)]
struct ClauseRecord {
    id: u64,
    start: usize,
    end: usize,
}

/// Clauses under ids that ascend: those given, under 1, 2 and so on, and then those of steps.
#[derive(Drop)]
pub struct ClauseList {
    vars: u32,
    inputs: usize,
    input_lits: usize,
    lits: Vec<Lit>,
    records: Vec<ClauseRecord>,
}

impl Model for ClauseList {
    ghost use Rattle.lrat_check.specs.State.{State};

    ghost Value = { State };

    ghost use Rattle.lrat_check.specs.Inner.{state_of, IsLaidOut};

    ghost view = { state_of };

    ghost invariant = { IsLaidOut };
}

impl ClauseList {
    /// No clauses yet, over the variables 1 to `vars`. It takes no memory.
    pub fn new(alloc: Global, vars: u32) -> ClauseList
        requires { vars < 2 ^ 31 }
        ensures vars { result.vars ≡ vars }
        ensures inputs { result.inputs ≡ 0 }
        ensures known { result.known ≡ [] }
    {
        ClauseList {
            vars,
            inputs: 0,
            input_lits: 0,
            lits: Vec::new(alloc),
            records: Vec::new(alloc),
        }
    }

    pub fn vars(&self) -> u32
        ensures vars { result ≡ self.now.vars }
        ensures small { result < 2 ^ 31 }
    {
        self.vars
    }

    /// How many clauses were given.
    pub fn inputs(&self) -> u64
        ensures inputs { result ≡ self.now.inputs }
        ensures within { result ≤ length self.now.known }
    {
        self.inputs as u64
    }

    /// The greatest id, or 0.
    pub fn last_id(&self) -> u64
        ensures { result ≡ last_id self.now.known }
    {
        let count = self.records.len();
        if count == 0 {
            0
        } else {
            self.records[count - 1].id
        }
    }

    pub fn clause(&self, id: u64) -> Option<&[Lit]>
        ensures clause { option_copied result ≡ clause_of self.now.known id }
        ensures over { IfSome result (λ clause. AreLiterals self.now.vars clause.now) }
        ensures ascend { IdsAscend self.now.known }
    {
        match find(&self.records, id) {
            Some(place) => {
                let record = self.records[place];
                Some(&self.lits[record.start..record.end])
            }
            None => None,
        }
    }

    /// Makes room for so many more clauses, with so many literals together.
    pub fn reserve(&mut self, count: u64, literals: u64) -> Result<(), AllocError>
        ensures ok { OnOk result (HasRoomFor self.new count literals) }
        ensures vars { self.new.vars ≡ self.old.vars }
        ensures inputs { self.new.inputs ≡ self.old.inputs }
        ensures known { self.new.known ≡ self.old.known }
        ensures room { self.old.room ≤ self.new.room }
        ensures literal_room { self.old.literal_room ≤ self.new.literal_room }
    {
        self.records.reserve(count as usize)?;
        self.lits.reserve(literals as usize)
    }

    /// Adds a clause at the end.
    pub fn add(&mut self, id: u64, lits: &[Lit]) -> Result<(), AllocError>
        requires over { AreLiterals self.old.vars lits.now }
        requires rises { last_id self.old.known < id }
        ensures added { OnOk result (self.new.known ≡ self.old.known ++ (id, lits.now) ∷ []) }
        ensures err { OnErr result (self.new.known ≡ self.old.known) }
        ensures succeeds { HasRoomFor self.old 1 (length lits.now) → IsOk result }
        ensures vars { self.new.vars ≡ self.old.vars }
        ensures inputs { self.new.inputs ≡ self.old.inputs }
        ensures room { self.old.room ≤ self.new.room + 1 }
        ensures literal_room { self.old.literal_room ≤ self.new.literal_room + length lits.now }
    {
        let start = self.lits.len();
        self.records.reserve(1)?;
        self.lits.extend_from_slice(lits)?;
        let end = self.lits.len();
        self.records.push_reserved(ClauseRecord { id, start, end });
        Ok(())
    }

    /// Adds a clause that is given, under the next id.
    pub fn add_input(&mut self, lits: &[Lit]) -> Result<(), AllocError>
        requires over { AreLiterals self.old.vars lits.now }
        requires inputs_alone { length self.old.known ≡ self.old.inputs }
        ensures added { OnOk result (self.new.known ≡ self.old.known ++ (self.old.inputs + 1, lits.now) ∷ []) }
        ensures inputs { OnOk result (self.new.inputs ≡ self.old.inputs + 1) }
        ensures err { OnErr result (self.new.known ≡ self.old.known) }
        ensures err_inputs { OnErr result (self.new.inputs ≡ self.old.inputs) }
        ensures succeeds { HasRoomFor self.old 1 (length lits.now) → IsOk result }
        ensures vars { self.new.vars ≡ self.old.vars }
        ensures room { self.old.room ≤ self.new.room + 1 }
        ensures literal_room { self.old.literal_room ≤ self.new.literal_room + length lits.now }
    {
        self.add(self.next_id(), lits)?;
        self.count_inputs();
        Ok(())
    }

    // The id of the clause that is given next.
    fn next_id(&self) -> u64
        requires { length self.now.known ≡ self.now.inputs }
        ensures id { result ≡ self.now.inputs + 1 }
        ensures rises { last_id self.now.known < result }
    {
        self.records.len() as u64 + 1
    }

    // Counts the clause that was added last as given.
    fn count_inputs(&mut self)
        requires one_more { length self.old.known ≡ self.old.inputs + 1 }
        requires id { last_id self.old.known ≡ self.old.inputs + 1 }
        ensures inputs { self.new.inputs ≡ self.old.inputs + 1 }
        ensures known { self.new.known ≡ self.old.known }
        ensures vars { self.new.vars ≡ self.old.vars }
        ensures room { self.new.room ≡ self.old.room }
        ensures literal_room { self.new.literal_room ≡ self.old.literal_room }
    {
        self.inputs = self.records.len();
        self.input_lits = self.lits.len();
    }

    /// Leaves the clauses that were given alone.
    pub fn back_to_inputs(&mut self)
        ensures known { self.new.known ≡ take self.old.inputs self.old.known }
        ensures vars { self.new.vars ≡ self.old.vars }
        ensures inputs { self.new.inputs ≡ self.old.inputs }
        ensures room { self.old.room ≤ self.new.room }
        ensures literal_room { self.old.literal_room ≤ self.new.literal_room }
    {
        self.records.truncate(self.inputs);
        self.lits.truncate(self.input_lits);
    }
}

// The place of the record with this id.
fn find(records: &[ClauseRecord], id: u64) -> Option<usize>
    requires { Ascend records.now }
    ensures some { IfSome result (IsAt records.now id) }
    ensures none { IfNone result (HasNoId records.now id) }
{
    if id > 0 && id <= records.len() as u64 {
        let place = (id - 1) as usize;
        if records[place].id == id {
            return Some(place);
        }
    }
    by_halving(records, id)
}

fn by_halving(records: &[ClauseRecord], id: u64) -> Option<usize>
    requires { Ascend records.now }
    ensures some { IfSome result (IsAt records.now id) }
    ensures none { IfNone result (HasNoId records.now id) }
{
    match records.binary_search_by_key(&id, |record| record.id) {
        Ok(place) => Some(place),
        Err(_) => None,
    }
}
