//! Conflicts of a longer problem.
ghost use Rattle.std.specs.Prelude.{◌≡◌, [], ◌∷◌, ◌++◌, OnOk};
ghost use Rattle.evidence_rec.specs.Records.{AllAccepted};
ghost use Rattle.edit_session.specs.Extends.{Extends};
ghost use Rattle.edit_session.specs.Carried.{kept};
ghost use Rattle.edit_session.specs.Opening.{IsKnown};

use crate::derivations::carried_proof;
use crate::witnesses::carried_witnesses;
use evidence_rec::{Record, Records};
use gm_base::Problem;
use std::alloc::{AllocError, Global};

/// Adds the conflicts of records, carried over, in order.
pub fn keep_all(
    alloc: Global,
    old: &Problem,
    new: &Problem,
    records: &Records,
    opening: &mut Records,
) -> Result<(), AllocError>
    requires extends { Extends old.now new.now }
    requires accepted { AllAccepted old.now records.now }
    ensures { OnOk result (opening.new ≡ opening.old ++ kept old.now new.now records.now) }
{
    let _groups = old.groups(); // The problem is well-formed.
    for at in 0..records.len() {
        keep(alloc, old, new, records.at(at), opening)?;
    }
    Ok(())
}

/// Adds a record, carried over, where it is a conflict.
fn keep(
    alloc: Global,
    old: &Problem,
    new: &Problem,
    known: &Record,
    opening: &mut Records,
) -> Result<(), AllocError>
    requires extends { Extends old.now new.now }
    requires known { IsKnown old.now known.now }
    ensures { OnOk result (opening.new ≡ opening.old ++ kept old.now new.now (known.now ∷ [])) }
{
    let Record::Conflict {
        set,
        proof,
        witnesses,
    } = known
    else {
        return Ok(());
    };
    let copy = set.copy(alloc)?;
    let carried = carried_proof(alloc, old, new, proof)?;
    let wide = carried_witnesses(alloc, new, witnesses)?;
    opening.push(Record::Conflict {
        set: copy,
        proof: carried,
        witnesses: wide,
    })
}
