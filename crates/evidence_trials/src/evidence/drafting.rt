//! A record that is made piece by piece.
use evidence_rec::{Proofs, Record, Refutation, Witnesses};
use gm_base::{Assign, AssignBuilder, DerivationBuilder, GroupSet, Kind, Problem};
use std::alloc::{AllocError, Global};
use trial_bases::{id_at, push_step, set_from};
use trial_script::{Step, known};

/// The pieces of a record so far.
#[derive(Drop)]
pub struct Draft {
    kind: Kind,
    set: GroupSet,
    proofs: Proofs,
    open: Option<DerivationBuilder>,
    witnesses: Witnesses,
}

impl Draft {
    /// Nothing of a conflict.
    pub fn new(alloc: Global) -> Draft {
        Draft {
            kind: Kind::Conflict,
            set: GroupSet::new(alloc),
            proofs: Proofs::new(alloc),
            open: None,
            witnesses: Witnesses::new(alloc),
        }
    }

    /// The record, if its pieces are enough. Where it has more proofs or witnesses than it can use, the last one counts.
    pub fn finish(mut self, alloc: Global) -> Result<Option<Record>, AllocError> {
        end_proof(&mut self, alloc)?;
        let Draft {
            kind,
            set,
            proofs,
            open: _,
            witnesses,
        } = self;
        Ok(match kind {
            Kind::Conflict => conflict_of(set, proofs, witnesses),
            Kind::Correction => correction_of(set, proofs, witnesses),
        })
    }
}

fn conflict_of(set: GroupSet, proofs: Proofs, witnesses: Witnesses) -> Option<Record> {
    match proofs.into_vec().pop() {
        Some(Refutation::Steps(proof)) => Some(Record::Conflict {
            set,
            proof,
            witnesses,
        }),
        Some(Refutation::Earlier(_)) | None => None,
    }
}

fn correction_of(set: GroupSet, proofs: Proofs, witnesses: Witnesses) -> Option<Record> {
    match witnesses.into_vec().pop() {
        Some(witness) => Some(Record::Correction {
            set,
            witness,
            proofs,
        }),
        None => None,
    }
}

/// Adds the piece of the call.
pub fn call_draft(
    draft: &mut Draft,
    problem: &Problem,
    alloc: Global,
    step: &Step<'_>,
) -> Result<bool, AllocError> {
    match step.word(0) {
        "conflict" => begin_draft(draft, Kind::Conflict, alloc, step),
        "correction" => begin_draft(draft, Kind::Correction, alloc, step),
        "proof" => begin_proof(draft, alloc, step),
        "earlier" => name_earlier(draft, alloc, step),
        "step" => match &mut draft.open {
            Some(proof) => push_step(proof, alloc, step),
            None => Ok(false),
        },
        "witness" => match witness_of(alloc, problem.vars(), step)? {
            Some(witness) => known(draft.witnesses.push(witness)),
            None => Ok(false),
        },
        _ => Ok(false),
    }
}

fn begin_draft(
    draft: &mut Draft,
    kind: Kind,
    alloc: Global,
    step: &Step<'_>,
) -> Result<bool, AllocError> {
    let Some(set) = set_from(alloc, step, 1)? else {
        return Ok(false);
    };
    *draft = Draft {
        kind,
        set,
        ..Draft::new(alloc)
    };
    Ok(true)
}

fn begin_proof(draft: &mut Draft, alloc: Global, step: &Step<'_>) -> Result<bool, AllocError> {
    end_proof(draft, alloc)?;
    let Some(goal) = id_at(step, 1) else {
        return Ok(false);
    };
    draft.open = Some(DerivationBuilder::new(alloc, goal));
    Ok(true)
}

/// Puts the number of an earlier record behind the refutations.
fn name_earlier(draft: &mut Draft, alloc: Global, step: &Step<'_>) -> Result<bool, AllocError> {
    end_proof(draft, alloc)?;
    match step.amount(1) {
        Some(number) => known(draft.proofs.push(Refutation::Earlier(number))),
        None => Ok(false),
    }
}

/// Puts the proof that is open behind the others.
fn end_proof(draft: &mut Draft, alloc: Global) -> Result<(), AllocError> {
    if let Some(open) = draft.open.take() {
        let proof = open.finish(alloc)?;
        draft.proofs.push(Refutation::Steps(proof))?;
    }
    Ok(())
}

/// The assignment with these true variables, if each of them is one.
fn witness_of(alloc: Global, vars: u32, step: &Step<'_>) -> Result<Option<Assign>, AllocError> {
    let mut values = AssignBuilder::all_false(alloc, vars)?;
    for at in 1..step.words().len() {
        let Some(var) = step.positive(at) else {
            return Ok(None);
        };
        if var as usize > values.len() {
            return Ok(None);
        }
        values.set(var, true);
    }
    Ok(Some(values.finish(alloc)?))
}
