//! Assignments of a longer problem.
ghost use Rattle.std.specs.Prelude.{◌≡◌, ◌+◌, ◌<◌, ◌≤◌, ◌^◌, ◌++◌, List, Bool, true, false, if◌then◌else◌, map, length, All, IfOk, slice_index_or, slice_set};
ghost use Rattle.edit_session.specs.Carried.{carried_witness};

use evidence_rec::Witnesses;
use gm_base::{Assign, AssignBuilder, Lit, Problem};
use std::alloc::{AllocError, Global};

/// An assignment of the old problem as one of the longer one, whose further variables are false.
pub fn carried_witness(alloc: Global, new: &Problem, witness: &Assign) -> Result<Assign, AllocError>
    requires { length witness.now ≤ new.now.vars }
    ensures { IfOk result (λ wide. wide ≡ carried_witness new.now witness.now) }
{
    if witness.len() == new.vars() as usize {
        return witness.copy();
    }
    let _groups = new.groups(); // Its variables are small.
    let mut builder = AssignBuilder::all_false(alloc, new.vars())?;
    for at in 0..witness.len() {
        set_if_true(&mut builder, witness, at as u32);
    }
    builder.finish(alloc)
}

/// Makes the variable behind so many true where it is true.
fn set_if_true(builder: &mut AssignBuilder, witness: &Assign, at: u32)
    requires within { at < length witness.now }
    requires room { length witness.now ≤ length builder.old }
    requires small { at + 1 < 2 ^ 31 }
    ensures { builder.new ≡ (if slice_index_or witness.now at false then slice_set builder.old at true else builder.old) }
{
    if witness.makes_true(Lit::new((at + 1) as i32)) {
        builder.set(at + 1, true);
    }
}

/// The witnesses of a conflict, each as one of the longer problem.
pub fn carried_witnesses(
    alloc: Global,
    new: &Problem,
    witnesses: &Witnesses,
) -> Result<Witnesses, AllocError>
    requires { All (λ (w : List Bool). length w ≤ new.now.vars) witnesses.now }
    ensures { IfOk result (λ wide. wide ≡ map (carried_witness new.now) witnesses.now) }
{
    let mut wide = Vec::new(alloc);
    wide.reserve_exact(witnesses.len())?;
    for at in 0..witnesses.len() {
        let witness = carried_witness(alloc, new, witnesses.at(at))?;
        wide.push(witness)?;
    }
    Ok(Witnesses::from_vec(wide))
}
