//! The cone of a goal: the derived steps that the clause of a step needs.
//!
//! From the goal the hints lead back to the steps that it needs, from theirs to the steps that these need, and so on.
//! Each hint is below the id of its step, so handling ids from the greatest down meets each id after all that need it,
//! and once. Inputs need nothing and are not followed. This costs what the cone costs, however long the log is.
ghost use Rattle.std.specs.Prelude.{◌≡◌, ◌<◌, ◌≤◌, ◌∷◌, [], length, IfOk, OnOk};
ghost use Rattle.sat_base.specs.Members.{In};
ghost use Rattle.lrat_steps.specs.Log.{steps_of};
ghost use Rattle.lrat_steps.specs.Cone.{is_input_at, hints_at, IsBackward, IsDerivedId, PutsDerived, IsCone};

use crate::log::Log;
use crate::step::StepKind;
use sat_base::WorkList;
use std::alloc::{AllocError, Global};

/// The ids of the derived steps that a goal needs, ascending.
pub fn cone_of(log: &Log, alloc: Global, goal: u64) -> Result<Vec<u64>, AllocError>
    requires backward { IsBackward (steps_of log.now) }
    requires from_one { 0 < goal }
    requires within { goal ≤ length (steps_of log.now) }
    ensures { IfOk result (λ ids. IsCone (steps_of log.now) goal ids.items) }
{
    let mut work = WorkList::new(alloc);
    let mut ids = Vec::new(alloc);
    put(log, &mut work, goal)?;
    while let Some(id) = work.take_greatest() {
        ids.push(id)?;
        put_hints(log, &mut work, id)?;
    }
    ids.reverse();
    Ok(ids)
}

// Puts in the hints of a step that were derived.
fn put_hints(log: &Log, work: &mut WorkList, id: u64) -> Result<(), AllocError>
    requires backward { IsBackward (steps_of log.now) }
    requires from_one { 0 < id }
    requires within { id ≤ length (steps_of log.now) }
    ensures { OnOk result (PutsDerived (steps_of log.now) work.old (hints_at (steps_of log.now) id) work.new) }
{
    let hints = log.hints(id);
    for at in 0..hints.len() {
        put(log, work, hints.at(at))?;
    }
    Ok(())
}

// Puts in an id unless it is an input's.
fn put(log: &Log, work: &mut WorkList, id: u64) -> Result<(), AllocError>
    requires from_one { 0 < id }
    requires within { id ≤ length (steps_of log.now) }
    ensures { OnOk result (PutsDerived (steps_of log.now) work.old (id ∷ []) work.new) }
{
    if is_input(log, id) {
        return Ok(());
    }
    work.insert(id)
}

/// Whether the step of an id is an input.
pub fn is_input(log: &Log, id: u64) -> bool
    requires from_one { 0 < id }
    requires within { id ≤ length (steps_of log.now) }
    ensures { result ≡ is_input_at (steps_of log.now) id }
{
    log.kind(id) == StepKind::Input
}
