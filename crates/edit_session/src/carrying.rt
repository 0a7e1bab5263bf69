//! Records of a problem carried over to a longer one.
//!
//! A conflict stays one: its clauses are still there. Its evidence is kept, with selectors and steps numbered anew. A correction
//! may be none any more, since new groups may not go together with what it leaves. But what it leaves can be satisfied still,
//! so it is grown again, and comes back with those of the new groups that don't fit.
ghost use Rattle.std.specs.Prelude.{◌≡◌, [], IfOk};
ghost use Rattle.evidence_rec.specs.Records.{AllAccepted};
ghost use Rattle.evidence_rec.specs.Held.{AreNew};
ghost use Rattle.evidence_rec.specs.Asking.{IsSpent, IsHonestOver};
ghost use Rattle.edit_session.specs.Carried.{kept};
ghost use Rattle.edit_session.specs.Extends.{Extends};
ghost use Rattle.edit_session.specs.Opening.{TellsCarried};

use crate::carried::Carried;
use crate::conflicts::keep_all;
use crate::corrections::regrow_all;
use evidence_rec::{Oracle, Records};
use gm_base::{Problem, Purse};
use std::alloc::{AllocError, Global};

/// Carries accepted records of the old problem over to one that extends it: first the conflicts, and then what the corrections
/// grow into.
///
/// The oracle is of the new problem. Which of several corrections an old one grows into depends on what it answers. It is the
/// same as [`keep_conflicts`] and then [`regrow_corrections`]; between these two an oracle that remembers sets can be told the
/// conflicts.
pub fn carry<O: Oracle>(
    alloc: Global,
    oracle: &mut O,
    old: &Problem,
    records: &Records,
    new: &Problem,
    purse: &mut Purse,
) -> Result<Carried, AllocError>
    requires problem { new.now ≡ (O.state oracle.old).problem }
    requires extends { Extends old.now new.now }
    requires accepted { AllAccepted old.now records.now }
    requires distinct { AreNew [] records.now }
    ensures carried { IfOk result (λ carried. TellsCarried (O.state oracle.new) old.now records.now purse.new.left carried) }
    ensures honest { IsHonestOver new.now (O.state oracle.old).log → IsHonestOver new.now (O.state oracle.new).log }
    ensures spent { IsSpent (O.state oracle.old) (O.state oracle.new) purse.old.left purse.new.left }
{
    let conflicts = keep_conflicts(alloc, old, records, new)?;
    regrow_corrections(alloc, oracle, old, records, new, conflicts, purse)
}

/// The conflicts among accepted records of the old problem, as records of one that extends it, in order.
pub fn keep_conflicts(
    alloc: Global,
    old: &Problem,
    records: &Records,
    new: &Problem,
) -> Result<Records, AllocError>
    requires extends { Extends old.now new.now }
    requires accepted { AllAccepted old.now records.now }
    ensures kept { IfOk result (λ conflicts. conflicts ≡ kept old.now new.now records.now) }
    ensures accepted { IfOk result (λ conflicts. AllAccepted new.now conflicts) }
{
    let _groups = old.groups(); // The problem is well-formed.
    let mut conflicts = Records::new(alloc);
    keep_all(alloc, old, new, records, &mut conflicts)?;
    Ok(conflicts)
}

/// Adds to the kept conflicts what the corrections among the records grow into, in order.
pub fn regrow_corrections<O: Oracle>(
    alloc: Global,
    oracle: &mut O,
    old: &Problem,
    records: &Records,
    new: &Problem,
    conflicts: Records,
    purse: &mut Purse,
) -> Result<Carried, AllocError>
    requires problem { new.now ≡ (O.state oracle.old).problem }
    requires extends { Extends old.now new.now }
    requires accepted { AllAccepted old.now records.now }
    requires distinct { AreNew [] records.now }
    requires kept { conflicts ≡ kept old.now new.now records.now }
    ensures carried { IfOk result (λ carried. TellsCarried (O.state oracle.new) old.now records.now purse.new.left carried) }
    ensures honest { IsHonestOver new.now (O.state oracle.old).log → IsHonestOver new.now (O.state oracle.new).log }
    ensures spent { IsSpent (O.state oracle.old) (O.state oracle.new) purse.old.left purse.new.left }
{
    let mut opening = conflicts;
    let _groups = old.groups(); // The problem is well-formed.
    match regrow_all(alloc, oracle, old, records, new, &mut opening, purse)? {
        Some(asked) => Ok(Carried::Dry(asked)),
        None => Ok(Carried::Opening(opening)),
    }
}
