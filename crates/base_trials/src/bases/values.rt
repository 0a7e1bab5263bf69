//! Assignments, work lists and derivations.
ghost use Rattle.std.specs.Prelude.{◌<◌, length};

use sat_base::{Assign, AssignBuilder, Derivation, DerivationBuilder, Hints, Lit, WorkList};
use std::alloc::{AllocError, Global};
use trial_bases::{id_at, lit_at, push_step};
use trial_script::{Step, hold, known, show};

/// One of each kind.
#[derive(Drop)]
pub struct Pieces {
    builder: Option<AssignBuilder>,
    pub assign: Option<Assign>,
    copy: Option<Assign>,
    work: WorkList,
    proof: Option<DerivationBuilder>,
}

impl Pieces {
    pub fn new(alloc: Global) -> Pieces {
        Pieces {
            builder: None,
            assign: None,
            copy: None,
            work: WorkList::new(alloc),
            proof: None,
        }
    }
}

/// Makes a call of one of them.
pub fn call_pieces(
    pieces: &mut Pieces,
    alloc: Global,
    step: &Step<'_>,
    out: &mut String,
) -> Result<bool, AllocError> {
    match step.word(0) {
        "variables" => begin_values(&mut pieces.builder, alloc, step, out),
        "true" => Ok(set_values(&mut pieces.builder, true, step)),
        "false" => Ok(set_values(&mut pieces.builder, false, step)),
        "finish" => finish_values(pieces, alloc, out),
        "prefix" | "flipped" => copy_values(pieces, alloc, step, out),
        "word" => show_number(word_of(pieces.assign.as_ref(), step), out),
        "told" => show_told(pieces.assign.as_ref(), pieces.copy.as_ref(), step, out),
        "insert" => insert(&mut pieces.work, step),
        "greatest" => show_number(pieces.work.greatest(), out),
        "take" => show_number(pieces.work.take_greatest(), out),
        "proof" => Ok(begin_proof(&mut pieces.proof, alloc, step)),
        "step" => match &mut pieces.proof {
            Some(proof) => push_step(proof, alloc, step),
            None => Ok(false),
        },
        "aim" => Ok(aim(&mut pieces.proof, step)),
        "steps" => match pieces.proof.take() {
            Some(proof) => show_copy(proof, alloc, out),
            None => Ok(false),
        },
        _ => Ok(false),
    }
}

/// Begins an assignment, and tells how many variables it has.
fn begin_values(
    place: &mut Option<AssignBuilder>,
    alloc: Global,
    step: &Step<'_>,
    out: &mut String,
) -> Result<bool, AllocError> {
    let Some(vars) = step.count(1) else {
        return Ok(false);
    };
    hold(place, AssignBuilder::all_false(alloc, vars))?;
    match place {
        Some(builder) => show_number(Some(builder.len() as u64), out),
        None => Ok(false),
    }
}

/// Gives the variables their value, if there is an assignment, up to the first word that is none of them; whether all were.
fn set_values(place: &mut Option<AssignBuilder>, value: bool, step: &Step<'_>) -> bool {
    match place {
        Some(builder) => set_each(builder, value, step),
        None => false,
    }
}

fn set_each(builder: &mut AssignBuilder, value: bool, step: &Step<'_>) -> bool {
    for at in 1..step.words().len() {
        let Some(var) = step.positive(at) else {
            return false;
        };
        if var as usize > builder.len() {
            return false;
        }
        builder.set(var, value);
    }
    true
}

/// Makes the assignment, and tells how many variables it has.
fn finish_values(pieces: &mut Pieces, alloc: Global, out: &mut String) -> Result<bool, AllocError> {
    let Some(builder) = pieces.builder.take() else {
        return Ok(false);
    };
    hold(&mut pieces.assign, builder.finish(alloc))?;
    show_len(&pieces.assign, out)
}

/// Makes its copy, and tells how many variables that has.
fn copy_values(
    pieces: &mut Pieces,
    alloc: Global,
    step: &Step<'_>,
    out: &mut String,
) -> Result<bool, AllocError> {
    let Some(copy) = copy_of(pieces.assign.as_ref(), alloc, step)? else {
        return Ok(false);
    };
    pieces.copy = Some(copy);
    show_len(&pieces.copy, out)
}

fn show_len(assign: &Option<Assign>, out: &mut String) -> Result<bool, AllocError> {
    match assign {
        Some(assign) => show_number(Some(assign.len() as u64), out),
        None => Ok(false),
    }
}

/// The copy that the call wants, if there is one.
fn copy_of(
    assign: Option<&Assign>,
    alloc: Global,
    step: &Step<'_>,
) -> Result<Option<Assign>, AllocError> {
    let (Some(assign), Some(number)) = (assign, step.count(1)) else {
        return Ok(None);
    };
    if step.word(0) == "prefix" {
        return Ok(Some(assign.copy()?.prefix(number)));
    }
    if number == 0 || number as usize > assign.len() {
        return Ok(None);
    }
    Ok(Some(assign.flipped(alloc, number)?))
}

/// 64 of the assignment's values as a word, if it has a value at their front.
fn word_of(assign: Option<&Assign>, step: &Step<'_>) -> Option<u64> {
    let (Some(assign), Some(at)) = (assign, step.count(1)) else {
        return None;
    };
    let at = at as usize;
    if 64 * at < assign.len() {
        Some(assign.word(at))
    } else {
        None
    }
}

/// Tells what the assignment says of a literal, and what the copy says.
fn show_told(
    assign: Option<&Assign>,
    copy: Option<&Assign>,
    step: &Step<'_>,
    out: &mut String,
) -> Result<bool, AllocError> {
    let Some(lit) = lit_at(step, 1) else {
        return Ok(false);
    };
    push_told(assign, lit, out)?;
    out.push_str(", of the copy ")?;
    push_told(copy, lit, out)?;
    show("", out)
}

/// Adds whether the literal is true and whether its negation is, or that the assignment has no such variable.
fn push_told(assign: Option<&Assign>, lit: Lit, out: &mut String) -> Result<(), AllocError> {
    match assign {
        Some(assign) if lit.var() as usize <= assign.len() => {
            let (same, other) = (assign.makes_true(lit), assign.makes_true(lit.negated()));
            write!(out, "{same} {other}")
        }
        _ => out.push_str("none"),
    }
}

/// Puts the numbers of the call in, if each is one.
fn insert(work: &mut WorkList, step: &Step<'_>) -> Result<bool, AllocError> {
    for at in 1..step.words().len() {
        let Some(number) = step.amount(at) else {
            return Ok(false);
        };
        work.insert(number)?;
    }
    Ok(true)
}

fn show_number(number: Option<u64>, out: &mut String) -> Result<bool, AllocError> {
    match number {
        Some(number) => known(writeln!(out, "{number}")),
        None => show("none", out),
    }
}

fn begin_proof(proof: &mut Option<DerivationBuilder>, alloc: Global, step: &Step<'_>) -> bool {
    let Some(goal) = id_at(step, 1) else {
        return false;
    };
    *proof = Some(DerivationBuilder::new(alloc, goal));
    true
}

/// Makes it for another goal, if there is one; whether it was.
fn aim(proof: &mut Option<DerivationBuilder>, step: &Step<'_>) -> bool {
    let (Some(proof), Some(goal)) = (proof, id_at(step, 1)) else {
        return false;
    };
    proof.aim_at(goal);
    true
}

/// Tells a copy of the derivation.
fn show_copy(
    proof: DerivationBuilder,
    alloc: Global,
    out: &mut String,
) -> Result<bool, AllocError> {
    show_steps(&proof.finish(alloc)?.copy()?, out)
}

fn show_steps(derivation: &Derivation, out: &mut String) -> Result<bool, AllocError> {
    let (goal, steps) = (derivation.goal(), derivation.len());
    writeln!(out, "goal {goal} steps {steps}")?;
    for at in 0..derivation.len() {
        show_step(derivation, at, out)?;
    }
    Ok(true)
}

fn show_step(derivation: &Derivation, at: usize, out: &mut String) -> Result<bool, AllocError>
    requires { at < length derivation.now.steps }
{
    let step = derivation.step(at);
    let id = step.id;
    write!(out, "step {id}")?;
    push_lits(step.lits, out)?;
    push_hints(step.hints, out)?;
    show("", out)
}

fn push_lits(lits: &[Lit], out: &mut String) -> Result<(), AllocError> {
    for lit in lits {
        let number = lit.number();
        write!(out, " {number}")?;
    }
    out.push_str(" 0")
}

fn push_hints(hints: Hints<'_>, out: &mut String) -> Result<(), AllocError> {
    for at in 0..hints.len() {
        let hint = hints.at(at);
        write!(out, " {hint}")?;
    }
    Ok(())
}
