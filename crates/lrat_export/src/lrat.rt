//! The refutation of a conflict's clauses by themselves, as a text.
//!
//! The proof is walked twice. The first walk gives each clause its number, and the second one writes the steps that stay. The
//! hints of a step are followed as a checker follows them, with the literals marked that are false: so it is known where a
//! hint's clause becomes false, behind which no hint may stand.
ghost use Rattle.std.specs.Prelude.{◌≡◌, ℕ, ◌≤◌, ◌<◌, true, [], ◌∷◌, ◌++◌, length, List, codes, IfOk, OnOk};
ghost use Rattle.std.specs.List.{flat_map};
ghost use Rattle.std.specs.Fmt.{signed_decimal};
ghost use Rattle.sat_base.specs.Hints.{ids_of};
ghost use Rattle.gm_base.specs.Sets.{IsGroupSet};
ghost use Rattle.gm_base.specs.Evidence.{refutes};
ghost use Rattle.gm_base.specs.declared.kind.Kind.TheVariants.{Conflict};
ghost use Rattle.evidence_rec.specs.Records.{kind_of, set_of, Accepts};
ghost use Rattle.lrat_check.specs.Marks.{HasPlaces};
ghost use Rattle.lrat_export.specs.Cnf.{clauses_of, lits_text};
ghost use Rattle.lrat_export.specs.Export.{bared, stays, known_of, first_number, empty_step, hints_of, exported, up_to, step_text, lrat_text};
ghost use Rattle.lrat_export.specs.Laws.{IsRefutation};
ghost use Rattle.lrat_export.specs.Numbers.{AreNumbers};
ghost use Rattle.lrat_export.specs.Walk.{GoesOn, hints_text, steps_text};
ghost use Rattle.lrat_export.specs.Conflict.{proof_of};

use crate::cnf::{count_present, push_lit, push_text};
use crate::hints::{Source, push_hint, push_hints, stay_of};
use crate::looking::mark_bared;
use crate::numbering::{is_settled, number_all};
use crate::table::GroupTable;
use evidence_rec::Record;
use gm_base::{Derivation, GroupSet, Lit, Problem};
use lrat_check::Marks;
use sat_base::Step;
use std::alloc::{AllocError, Global};
use token_text::put_number;

/// The refutation of an accepted conflict's clauses in LRAT, over the clauses that `cnf_of` writes. It takes memory for a
/// number for each clause and step of the proof, for a mark for each literal, and a byte for each group.
pub fn lrat_of(alloc: Global, problem: &Problem, found: &Record) -> Result<Vec<u8>, AllocError>
    requires conflict { kind_of found.now ≡ Conflict }
    requires accepted { Accepts problem.now [] found.now }
    ensures text { IfOk result (λ text. text.items ≡ lrat_text problem.now (set_of found.now) (proof_of found.now)) }
    ensures refutes { IsRefutation problem.now.vars (clauses_of problem.now (set_of found.now)) (exported problem.now (set_of found.now) (proof_of found.now)) }
{
    // The problem is well formed, as this call says.
    let _groups = problem.groups();
    match found {
        Record::Conflict {
            set,
            proof,
            witnesses: _,
        } => lrat_of_proof(alloc, problem, set, proof),
        Record::Correction { .. } => Ok(Vec::new(alloc)),
    }
}

fn lrat_of_proof(
    alloc: Global,
    problem: &Problem,
    set: &GroupSet,
    proof: &Derivation,
) -> Result<Vec<u8>, AllocError>
    requires { refutes problem.now set.now proof.now ≡ true }
    ensures { IfOk result (λ text. text.items ≡ lrat_text problem.now set.now proof.now) }
{
    let table = GroupTable::new(alloc, set, problem.groups())?;
    lrat_by_table(alloc, problem, &table, proof)
}

fn lrat_by_table(
    alloc: Global,
    problem: &Problem,
    set: &GroupTable<'_>,
    proof: &Derivation,
) -> Result<Vec<u8>, AllocError>
    requires { refutes problem.now set.now proof.now ≡ true }
    ensures { IfOk result (λ text. text.items ≡ lrat_text problem.now set.now proof.now) }
{
    let entries = number_all(alloc, problem, set, proof)?;
    let source = Source {
        problem,
        set,
        proof,
        entries: entries.as_slice(),
    };
    let mut out = Vec::new(alloc);
    push_exported(&mut out, alloc, source)?;
    Ok(out)
}

fn push_exported(out: &mut Vec<u8>, alloc: Global, source: Source<'_>) -> Result<(), AllocError>
    requires numbers { AreNumbers source.problem.now source.set.now source.proof.now source.entries.now }
    ensures { OnOk result (out.new.items ≡ out.old.items ++ lrat_text source.entry.problem.now source.entry.set.now source.entry.proof.now) }
{
    let clauses = count_present(source.problem, source.set) as u64;
    let Some(number) = clauses.checked_add(1) else {
        return Err(AllocError);
    };
    if source.proof.goal() <= source.problem.len() as u64 {
        return push_empty_step(out, source, number);
    }
    let mut marks = Marks::new(alloc, source.problem.vars())?;
    push_steps(out, source, &mut marks, number)
}

/// The empty clause, which is that of the goal already.
fn push_empty_step(out: &mut Vec<u8>, source: Source<'_>, number: u64) -> Result<(), AllocError>
    requires { AreNumbers source.problem.now source.set.now source.proof.now source.entries.now }
    ensures { OnOk result (out.new.items ≡ out.old.items ++ step_text (empty_step number (stays (known_of source.entry.problem.now source.entry.set.now source.entry.proof.now) source.entry.proof.now.goal))) }
{
    put_number(out, i128::from(number))?;
    push_text(out, " 0")?;
    if let Some(stay) = stay_of(source, source.proof.goal()) {
        push_hint(out, stay.number)?;
    }
    push_text(out, " 0\n")
}

/// The steps that stay up to that of the goal, with numbers from this one on.
fn push_steps(
    out: &mut Vec<u8>,
    source: Source<'_>,
    marks: &mut Marks,
    first: u64,
) -> Result<(), AllocError>
    requires numbers { AreNumbers source.problem.now source.set.now source.proof.now source.entries.now }
    requires places { HasPlaces source.problem.now.vars marks.old }
    ensures { OnOk result (out.new.items ≡ out.old.items ++ steps_text source.entry.problem.now.vars source.entry.set.now (known_of source.entry.problem.now source.entry.set.now source.entry.proof.now) first (up_to source.entry.proof.now.goal source.entry.proof.now.steps)) }
{
    let goal = source.proof.goal();
    let mut number = first;
    for at in 0..source.proof.len() {
        let step = source.proof.step(at);
        number = push_if_stays(out, source, marks, number, step)?;
        if step.id == goal {
            return Ok(());
        }
    }
    Ok(())
}

/// A step, where it stays. The answer is the number of the next one.
fn push_if_stays(
    out: &mut Vec<u8>,
    source: Source<'_>,
    marks: &mut Marks,
    number: u64,
    step: Step<'_>,
) -> Result<u64, AllocError>
    requires numbers { AreNumbers source.problem.now source.set.now source.proof.now source.entries.now }
    requires places { HasPlaces source.problem.now.vars marks.old }
    ensures text { IfOk result (λ next. GoesOn source.entry.problem.now.vars source.entry.set.now (known_of source.entry.problem.now source.entry.set.now source.entry.proof.now) out.old.items out.new.items number next (record { id = step.entry.id; lits = step.entry.lits.now; hints = ids_of step.entry.hints })) }
    ensures places { HasPlaces source.entry.problem.now.vars marks.new }
{
    if is_settled(source.problem.vars(), source.set, step.lits) {
        return Ok(number);
    }
    let Some(next) = number.checked_add(1) else {
        return Err(AllocError);
    };
    push_step(out, source, marks, number, step)?;
    Ok(next)
}

fn push_step(
    out: &mut Vec<u8>,
    source: Source<'_>,
    marks: &mut Marks,
    number: u64,
    step: Step<'_>,
) -> Result<(), AllocError>
    requires numbers { AreNumbers source.problem.now source.set.now source.proof.now source.entries.now }
    requires places { HasPlaces source.problem.now.vars marks.old }
    ensures text { OnOk result (out.new.items ≡ out.old.items ++ step_text (record { id = number; lits = bared source.entry.problem.now.vars step.entry.lits.now; hints = hints_of (known_of source.entry.problem.now source.entry.set.now source.entry.proof.now) (bared source.entry.problem.now.vars step.entry.lits.now) (ids_of step.entry.hints) })) }
    ensures places { HasPlaces source.entry.problem.now.vars marks.new }
{
    let vars = source.problem.vars();
    marks.clear();
    mark_bared(marks, vars, step.lits);
    put_number(out, i128::from(number))?;
    push_text(out, " ")?;
    push_bared(out, vars, step.lits)?;
    push_text(out, "0")?;
    push_hints(out, source, marks, step.lits, step.hints)?;
    push_text(out, " 0\n")
}

/// The literals of a clause that are not of a selector, each before a blank.
fn push_bared(out: &mut Vec<u8>, vars: u32, lits: &[Lit]) -> Result<(), AllocError>
    ensures { OnOk result (out.new.items ≡ out.old.items ++ flat_map (λ l. signed_decimal l ++ codes " ") (bared vars lits.now)) }
{
    for lit in lits {
        push_if_bared(out, vars, *lit)?;
    }
    Ok(())
}

fn push_if_bared(out: &mut Vec<u8>, vars: u32, lit: Lit) -> Result<(), AllocError>
    ensures { OnOk result (out.new.items ≡ out.old.items ++ flat_map (λ l. signed_decimal l ++ codes " ") (bared vars (lit ∷ []))) }
{
    if lit.var() > vars {
        return Ok(());
    }
    push_lit(out, lit)
}
