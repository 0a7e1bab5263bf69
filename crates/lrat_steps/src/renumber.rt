//! Derivations from the steps of a log.
//!
//! A derivation numbers its clauses anew: the inputs from 1, in the order of the log, and the steps on from there. So
//! an input gets its number among the inputs, and a derived step its place among those that the goal needs. Where all inputs come
//! first, as in the log of an oracle, the steps stay where they are, and are numbered as they are read. Where others stand among
//! them, as in the log of a map, they are written anew.
ghost use Rattle.std.specs.Prelude.{◌≡◌, ℕ, ◌<◌, ◌≤◌, [], ◌∷◌, ◌++◌, length, map, All, IsTrue, IfOk, OnOk};
ghost use Rattle.sat_base.specs.Derivation.{max_id};
ghost use Rattle.lrat_steps.specs.Log.{steps_of, inputs_of};
ghost use Rattle.lrat_steps.specs.Cone.{kept_at, IsBackward, IsCone, InputsComeFirst, AreDerivedIds, IsReached, number_in, hints_at, trimmed, trimmed_step};
ghost use Rattle.sat_base.specs.Members.{In};
ghost use Rattle.sat_base.specs.Numbering.{Ascends, place_in};

use crate::cone::is_input;
use crate::log::Log;
use sat_base::{Derivation, DerivationBuilder, Numbering, SharedStep, end_of, push_narrow};
use std::alloc::{AllocError, Global};

/// The derivation of a goal's clause by the steps of its cone.
pub fn derivation_of(
    log: &Log,
    alloc: Global,
    cone: &[u64],
    goal: u64,
) -> Result<Derivation, AllocError>
    requires backward { IsBackward (steps_of log.now) }
    requires from_one { 0 < goal }
    requires within { goal ≤ length (steps_of log.now) }
    requires cone { IsCone (steps_of log.now) goal cone.now }
    ensures { IfOk result (λ d. d ≡ trimmed (steps_of log.now) goal cone.now) }
{
    let number = number_of(log, cone, goal);
    if inputs_come_first(log) {
        return shared_derivation(log, alloc, cone, goal, number);
    }
    let mut builder = DerivationBuilder::new(alloc, number);
    push_steps(log, alloc, cone, goal, &mut builder)?;
    builder.finish(alloc)
}

// Whether the inputs are the first steps of the log, so that they are numbered by their ids.
fn inputs_come_first(log: &Log) -> bool
    ensures { IsTrue result → InputsComeFirst (steps_of log.now) }
{
    let inputs = log.input_count();
    if inputs == 0 {
        return true;
    }
    log.input_number(u64::from(inputs)) == inputs
}

// The derivation by the steps of a cone where they stand, where the inputs come first.
fn shared_derivation(
    log: &Log,
    alloc: Global,
    cone: &[u64],
    goal: u64,
    number: u64,
) -> Result<Derivation, AllocError>
    requires backward { IsBackward (steps_of log.now) }
    requires first { InputsComeFirst (steps_of log.now) }
    requires cone { IsCone (steps_of log.now) goal cone.now }
    requires number { number ≡ number_in (steps_of log.now) cone.now goal }
    requires small { number ≤ max_id }
    ensures { IfOk result (λ d. d ≡ trimmed (steps_of log.now) goal cone.now) }
{
    let by = numbering_of(log, alloc, cone)?;
    let steps = steps_of_cone(log, alloc, cone)?;
    Derivation::of_log(alloc, number, by, steps)
}

// The numbers that the steps of a cone get.
fn numbering_of(log: &Log, alloc: Global, cone: &[u64]) -> Result<Numbering, AllocError>
    requires cone { AreDerivedIds (steps_of log.now) cone.now }
    ensures { IfOk result (λ by. by ≡ record { inputs = length (inputs_of (steps_of log.now)); ids = cone.now }) }
{
    let _few = end_of(cone.len(), 0)?;
    let _count = log.count();
    let mut ids = Vec::new(alloc);
    push_narrow(&mut ids, cone)?;
    Ok(Numbering::new(log.input_count(), ids))
}

// The steps of a cone, where they stand.
fn steps_of_cone(log: &Log, alloc: Global, cone: &[u64]) -> Result<Vec<SharedStep>, AllocError>
    requires cone { AreDerivedIds (steps_of log.now) cone.now }
    ensures { IfOk result (λ steps. steps.items ≡ map (kept_at (steps_of log.now)) cone.now) }
{
    let mut steps = Vec::new(alloc);
    steps.reserve(cone.len())?;
    for id in cone {
        steps.push(log.share(*id)?)?;
    }
    Ok(steps)
}

// Adds the steps of a cone, in order. One list serves for the hints of each.
fn push_steps(
    log: &Log,
    alloc: Global,
    cone: &[u64],
    goal: u64,
    builder: &mut DerivationBuilder,
) -> Result<(), AllocError>
    requires backward { IsBackward (steps_of log.now) }
    requires cone { IsCone (steps_of log.now) goal cone.now }
    ensures { OnOk result (builder.new ≡ record builder.old { steps = builder.old.steps ++ map (trimmed_step (steps_of log.now) cone.now) cone.now }) }
{
    let mut numbers = Vec::new(alloc);
    for id in cone {
        push_step(log, cone, *id, &mut numbers, builder)?;
    }
    Ok(())
}

// Adds a step of the cone.
fn push_step(
    log: &Log,
    cone: &[u64],
    id: u64,
    numbers: &mut Vec<u64>,
    builder: &mut DerivationBuilder,
) -> Result<(), AllocError>
    requires backward { IsBackward (steps_of log.now) }
    requires cone { AreDerivedIds (steps_of log.now) cone.now }
    requires has { In id cone.now }
    requires reached { (h : ℕ) → In h (hints_at (steps_of log.now) id) → IsReached (steps_of log.now) cone.now h }
    ensures { OnOk result (builder.new ≡ record builder.old { steps = builder.old.steps ++ trimmed_step (steps_of log.now) cone.now id ∷ [] }) }
{
    renumber(log, cone, id, numbers)?;
    builder.push(number_of(log, cone, id), log.lits(id), numbers.as_slice())
}

// The hints of a step by their new numbers, in place of what was there.
fn renumber(log: &Log, cone: &[u64], id: u64, numbers: &mut Vec<u64>) -> Result<(), AllocError>
    requires backward { IsBackward (steps_of log.now) }
    requires from_one { 0 < id }
    requires within { id ≤ length (steps_of log.now) }
    requires cone { AreDerivedIds (steps_of log.now) cone.now }
    requires reached { (h : ℕ) → In h (hints_at (steps_of log.now) id) → IsReached (steps_of log.now) cone.now h }
    ensures numbers { OnOk result (numbers.new.items ≡ map (number_in (steps_of log.now) cone.now) (hints_at (steps_of log.now) id)) }
    ensures small { OnOk result (All (λ n. n ≤ max_id) numbers.new.items) }
{
    numbers.clear();
    let hints = log.hints(id);
    for at in 0..hints.len() {
        numbers.push(number_of(log, cone, hints.at(at)))?;
    }
    Ok(())
}

// The new number of a step. An input has its number among the inputs.
fn number_of(log: &Log, cone: &[u64], id: u64) -> u64
    requires from_one { 0 < id }
    requires within { id ≤ length (steps_of log.now) }
    requires cone { AreDerivedIds (steps_of log.now) cone.now }
    requires reached { IsReached (steps_of log.now) cone.now id }
    ensures number { result ≡ number_in (steps_of log.now) cone.now id }
    ensures small { result ≤ max_id }
{
    if is_input(log, id) {
        return u64::from(log.input_number(id));
    }
    // Its place is below its id, so the sum is small.
    let _count = log.count();
    u64::from(log.input_count()) + 1 + place_of(cone, id)
}

// The place of a number among ascending ones.
fn place_of(numbers: &[u64], n: u64) -> u64
    requires ascends { Ascends numbers.now }
    requires has { In n numbers.now }
    ensures { result ≡ place_in numbers.now n }
{
    let Ok(at) = numbers.binary_search(&n) else {
        unreachable!();
    };
    at as u64
}
