//! The hints that stay.
ghost use Rattle.std.specs.Prelude.{◌≡◌, ℕ, ◌+◌, ◌<◌, [], ◌∷◌, ◌++◌, List, ℤ, Some, None, length, IfOk, IfSome, IfNone, OnOk, slice_index_or};
ghost use Rattle.sat_base.specs.Derivation.{all_known};
ghost use Rattle.sat_base.specs.Hints.{ids_of};
ghost use Rattle.gm_base.specs.Evidence.{selector_form};
ghost use Rattle.lrat_check.specs.Marks.{HasPlaces, AreMarked};
ghost use Rattle.lrat_export.specs.Export.{bared, stays, known_of, hints_of};
ghost use Rattle.lrat_export.specs.Numbers.{AreNumbers};
ghost use Rattle.lrat_export.specs.Walk.{IsNext, IsOver, IsWalked, hints_text};

use crate::cnf::push_text;
use crate::looking::{Opened, look};
use crate::numbering::{Entry, find};
use crate::table::GroupTable;
use gm_base::{Derivation, Hints, Lit, Problem};
use lrat_check::Marks;
use std::alloc::AllocError;
use token_text::put_number;

/// What is exported, with an entry for each of its clauses.
#[derive(Clone, Copy)]
pub struct Source<'a> {
    pub problem: &'a Problem,
    pub set: &'a GroupTable<'a>,
    pub proof: &'a Derivation,
    pub entries: &'a [Entry],
}

/// A clause that stays: its number and its literals, those of selectors included.
#[derive(Clone, Copy)]
pub struct Stay<'a> {
    pub number: u64,
    pub lits: &'a [Lit],
}

/// What becomes of a hint.
#[derive(Clone, Copy)]
pub enum Next {
    Goes,
    /// It is of the clause with this number, which makes this literal true.
    Makes(u64, Lit),
    /// It is of the clause with this number, which is false.
    Ends(u64),
}

/// Writes the hints that stay of these, where the literals of a step that are not of selectors are marked.
pub fn push_hints(
    out: &mut Vec<u8>,
    source: Source<'_>,
    marks: &mut Marks,
    lits: &[Lit],
    hints: Hints<'_>,
) -> Result<(), AllocError>
    requires numbers { AreNumbers source.problem.now source.set.now source.proof.now source.entries.now }
    requires places { HasPlaces source.problem.now.vars marks.old }
    requires marked { AreMarked marks.old (bared source.problem.now.vars lits.now) }
    ensures text { OnOk result (out.new.items ≡ out.old.items ++ hints_text (hints_of (known_of source.entry.problem.now source.entry.set.now source.entry.proof.now) (bared source.entry.problem.now.vars lits.now) (ids_of hints.entry))) }
    ensures places { HasPlaces source.entry.problem.now.vars marks.new }
{
    for at in 0..hints.len() {
        let ended = push_next(out, source, marks, hints.at(at))?;
        if ended {
            return Ok(());
        }
    }
    Ok(())
}

/// Writes a hint where it stays. The answer is whether its clause is false, so that no hint may stand behind it.
fn push_next(
    out: &mut Vec<u8>,
    source: Source<'_>,
    marks: &mut Marks,
    hint: u64,
) -> Result<bool, AllocError>
    requires numbers { AreNumbers source.problem.now source.set.now source.proof.now source.entries.now }
    requires places { HasPlaces source.problem.now.vars marks.old }
    ensures walked { IfOk result (λ ended. (falses : List ℤ) → AreMarked marks.old falses → IsWalked (known_of source.entry.problem.now source.entry.set.now source.entry.proof.now) falses hint out.old.items out.new.items marks.new ended) }
    ensures places { HasPlaces source.entry.problem.now.vars marks.new }
{
    match next_of(source, marks, hint) {
        Next::Goes => Ok(false),
        Next::Makes(number, lit) => {
            push_hint(out, number)?;
            marks.mark(lit.negated());
            Ok(false)
        }
        Next::Ends(number) => {
            push_hint(out, number)?;
            Ok(true)
        }
    }
}

pub fn push_hint(out: &mut Vec<u8>, number: u64) -> Result<(), AllocError>
    ensures { OnOk result (out.new.items ≡ out.old.items ++ hints_text (number ∷ [])) }
{
    push_text(out, " ")?;
    put_number(out, i128::from(number))
}

fn next_of(source: Source<'_>, marks: &Marks, hint: u64) -> Next
    requires numbers { AreNumbers source.problem.now source.set.now source.proof.now source.entries.now }
    requires places { HasPlaces source.problem.now.vars marks.now }
    ensures is { (falses : List ℤ) → AreMarked marks.now falses → IsNext (known_of source.entry.problem.now source.entry.set.now source.entry.proof.now) falses hint result }
    ensures over { IsOver source.entry.problem.now.vars result }
{
    let Some(stay) = stay_of(source, hint) else {
        return Next::Goes;
    };
    match look(marks, source.problem.vars(), stay.lits) {
        Opened::Nothing => Next::Ends(stay.number),
        Opened::One(lit) => {
            if marks.is_marked(lit.negated()) {
                Next::Goes
            } else {
                Next::Makes(stay.number, lit)
            }
        }
        Opened::Many => Next::Goes,
    }
}

/// The clause of an id, where it stays.
pub fn stay_of<'a>(source: Source<'a>, id: u64) -> Option<Stay<'a>>
    requires { AreNumbers source.problem.now source.set.now source.proof.now source.entries.now }
    ensures some { IfSome result (λ stay. stays (known_of source.entry.problem.now source.entry.set.now source.entry.proof.now) id ≡ Some (stay.number, bared source.entry.problem.now.vars stay.lits.now)) }
    ensures none { IfNone result (stays (known_of source.entry.problem.now source.entry.set.now source.entry.proof.now) id ≡ None) }
{
    let Some(place) = find(source.entries, id) else {
        return None;
    };
    let number = source.entries[place].number;
    if number == 0 {
        return None;
    }
    let lits = lits_at(source.problem, source.proof, place);
    Some(Stay { number, lits })
}

/// The literals at a place among the problem's clauses and then the steps. The selectors of the clauses are left out.
fn lits_at<'a>(problem: &'a Problem, proof: &'a Derivation, place: usize) -> &'a [Lit]
    requires { place < length problem.now.clauses + length proof.now.steps }
    ensures { bared problem.now.vars result.now ≡ bared problem.now.vars (slice_index_or (all_known (selector_form problem.now) proof.now.steps) place (0, [])).1 }
{
    if place < problem.len() {
        problem.clause(place).lits.as_slice()
    } else {
        proof.step(place - problem.len()).lits
    }
}
