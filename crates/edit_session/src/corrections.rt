//! Corrections of a longer problem.
//!
//! What an old correction leaves out is satisfied by its witness, in the longer problem too, where new variables are false.
//! So it is grown from there: the new groups are tried together first (`widening.rt`), and then each group that is still out
//! by itself. Of the groups of the correction all stay out, since none of them could be put in before.
ghost use Rattle.std.specs.Prelude.{◌≡◌, ◌<◌, true, length, IfOk, IfSome};
ghost use Rattle.gm_base.specs.Evidence.{is_witness};
ghost use Rattle.evidence_rec.specs.Records.{AllAccepted};
ghost use Rattle.evidence_rec.specs.Asking.{IsSpent, IsHonestOver};
ghost use Rattle.edit_session.specs.Extends.{Extends};
ghost use Rattle.edit_session.specs.Carried.{kept};
ghost use Rattle.edit_session.specs.Opening.{IsKnown, TellsRegrown, TellsAllRegrown};

use crate::widening::{Widened, widen};
use crate::witnesses::carried_witness;
use evidence_rec::{Oracle, Record, Records};
use gm_base::{Assign, GroupSet, Problem, Purse};
use mss_grow::{Grown, grow};
use std::alloc::{AllocError, Global};

/// A set of groups, and an assignment that satisfies it.
#[derive(Drop)]
pub struct Start {
    pub set: GroupSet,
    pub witness: Assign,
}

/// What the record at this place is grown from, where it is a correction: the old groups that it leaves out.
pub fn start_at(
    alloc: Global,
    old: &Problem,
    records: &Records,
    at: usize,
    new: &Problem,
) -> Result<Option<Start>, AllocError>
    requires extends { Extends old.now new.now }
    requires accepted { AllAccepted old.now records.now }
    requires within { at < length records.now }
    ensures { IfOk result (λ found. IfSome found (λ start. is_witness new.now start.set start.witness ≡ true)) }
{
    let _groups = old.groups(); // The problem is well-formed.
    start_of(alloc, old, records.at(at), new)
}

fn start_of(
    alloc: Global,
    old: &Problem,
    known: &Record,
    new: &Problem,
) -> Result<Option<Start>, AllocError>
    requires extends { Extends old.now new.now }
    requires known { IsKnown old.now known.now }
    ensures { IfOk result (λ found. IfSome found (λ start. is_witness new.now start.set start.witness ≡ true)) }
{
    let Record::Correction {
        set,
        witness,
        proofs: _,
    } = known
    else {
        return Ok(None);
    };
    let left = set.complement(alloc, old.groups())?;
    let assign = carried_witness(alloc, new, witness)?;
    Ok(Some(Start {
        set: left,
        witness: assign,
    }))
}

/// Adds what the corrections of records grow into, in order, and gives the set asked where the purse is empty.
pub fn regrow_all<O: Oracle>(
    alloc: Global,
    oracle: &mut O,
    old: &Problem,
    records: &Records,
    new: &Problem,
    opening: &mut Records,
    purse: &mut Purse,
) -> Result<Option<GroupSet>, AllocError>
    requires problem { new.now ≡ (O.state oracle.old).problem }
    requires extends { Extends old.now new.now }
    requires accepted { AllAccepted old.now records.now }
    requires kept { opening.old ≡ kept old.now new.now records.now }
    ensures regrown { IfOk result (λ dry. TellsAllRegrown (O.state oracle.new) old.now records.now opening.new purse.new.left dry) }
    ensures honest { IsHonestOver new.now (O.state oracle.old).log → IsHonestOver new.now (O.state oracle.new).log }
    ensures spent { IsSpent (O.state oracle.old) (O.state oracle.new) purse.old.left purse.new.left }
{
    let _groups = old.groups(); // The problem is well-formed.
    for at in 0..records.len() {
        let known = records.at(at);
        if let Some(asked) = regrow(alloc, oracle, old, known, new, opening, purse)? {
            return Ok(Some(asked));
        }
    }
    Ok(None)
}

/// Adds what a record grows into, where it is a correction, and gives the set asked where the purse is empty.
fn regrow<O: Oracle>(
    alloc: Global,
    oracle: &mut O,
    old: &Problem,
    known: &Record,
    new: &Problem,
    opening: &mut Records,
    purse: &mut Purse,
) -> Result<Option<GroupSet>, AllocError>
    requires problem { new.now ≡ (O.state oracle.old).problem }
    requires extends { Extends old.now new.now }
    requires known { IsKnown old.now known.now }
    ensures regrown { IfOk result (λ dry. TellsRegrown (O.state oracle.new) old.now known.now opening.old opening.new purse.new.left dry) }
    ensures honest { IsHonestOver new.now (O.state oracle.old).log → IsHonestOver new.now (O.state oracle.new).log }
    ensures spent { IsSpent (O.state oracle.old) (O.state oracle.new) purse.old.left purse.new.left }
{
    let Record::Correction {
        set,
        witness,
        proofs: _,
    } = known
    else {
        return Ok(None);
    };
    let _groups = new.groups(); // The problem is well-formed.
    let given = Start {
        set: set.complement(alloc, old.groups())?,
        witness: carried_witness(alloc, new, witness)?,
    };
    let wider = set.complement(alloc, new.groups())?;
    let Start {
        set: start,
        witness: assign,
    } = match widen(alloc, oracle, new, old.groups(), given, wider, purse)? {
        Widened::Start(start) => start,
        Widened::Dry(asked) => return Ok(Some(asked)),
    };
    match grow(alloc, oracle, new, &start, &assign, 0, purse)? {
        Grown::Done(made) => {
            opening.push(made)?;
            Ok(None)
        }
        Grown::Dry(asked) => Ok(Some(asked)),
    }
}
