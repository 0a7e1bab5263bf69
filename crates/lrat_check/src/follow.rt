//! Unit propagation along hints.
//!
//! The literals that are false are marked: first those of the step's clause, then the negation of each literal that a
//! hint's clause makes true. A literal that is true already is not false, so it counts as the one literal of a hint's
//! clause and is made true again, which changes nothing.
ghost use Rattle.std.specs.Prelude.{◌≡◌, ◌↔◌, [], IsTrue, length, neg_ℤ};
ghost use Rattle.std.specs.List.{list_any};
ghost use Rattle.sat_base.specs.Literals.{AreLiterals};
ghost use Rattle.sat_base.specs.Derivation.{contains_lit};
ghost use Rattle.sat_base.specs.Hints.{ids_of};
ghost use Rattle.lrat_check.specs.Refusal.{hints_refusal, clause_refusal};
ghost use Rattle.lrat_check.specs.Marks.{HasPlaces, HavePlaces, AreMarked, unmarked, is_marked};
ghost use Rattle.lrat_check.specs.Opened.{IsOpened};

use crate::clauses::ClauseList;
use crate::marks::Marks;
use crate::why::Why;
use sat_base::{Hints, Lit};

/// Why a clause does not follow along the hints, with no literal marked at first. Marks stay behind.
pub fn clause_refusal(
    clauses: &ClauseList,
    marks: &mut Marks,
    lits: &[Lit],
    hints: Hints<'_>,
) -> Option<Why>
    requires places { HasPlaces clauses.now.vars marks.old }
    requires clear { AreMarked marks.old [] }
    ensures answer { result ≡ clause_refusal clauses.now.vars clauses.now.known lits.now (ids_of hints.entry) }
    ensures places { HasPlaces clauses.now.vars marks.new }
{
    if !are_over(clauses.vars(), lits) {
        return Some(Why::BadLiteral);
    }
    mark_all(marks, lits);
    if has_negation(marks, lits) {
        return Some(Why::BadLiteral);
    }
    follow(clauses, marks, lits, hints)
}

// Whether each literal is over the variables.
fn are_over(vars: u32, lits: &[Lit]) -> bool
    ensures { IsTrue result ↔ AreLiterals vars lits.now }
{
    for lit in lits {
        if lit.var() > vars {
            return false;
        }
    }
    true
}

fn mark_all(marks: &mut Marks, lits: &[Lit])
    requires places { HavePlaces marks.old lits.now }
    requires clear { AreMarked marks.old [] }
    ensures len { length marks.new ≡ length marks.old }
    ensures marked { AreMarked marks.new lits.now }
{
    for lit in lits {
        marks.mark(*lit);
    }
}

// Whether the negation of one of the literals is marked.
fn has_negation(marks: &Marks, lits: &[Lit]) -> bool
    requires { HavePlaces marks.now lits.now }
    ensures { result ≡ list_any (λ l. is_marked marks.now (neg_ℤ l)) lits.now }
{
    for lit in lits {
        if marks.is_marked(lit.negated()) {
            return true;
        }
    }
    false
}

/// The literals of a clause that are not false.
#[derive(Clone, Copy)]
enum Opened {
    Nothing,
    /// This one alone, which may be repeated.
    One(Lit),
    /// Two different ones, and maybe more.
    Many,
}

fn look(marks: &Marks, clause: &[Lit]) -> Opened
    requires { HavePlaces marks.now clause.now }
    ensures { IsOpened (unmarked marks.now clause.now) result }
{
    let mut open: Option<Lit> = None;
    for lit in clause {
        if !marks.is_marked(*lit) {
            if let Some(first) = open {
                if first != *lit {
                    return Opened::Many;
                }
            }
            open = Some(*lit);
        }
    }
    match open {
        None => Opened::Nothing,
        Some(lit) => Opened::One(lit),
    }
}

// Why the hints don't lead to a false clause, where the marked literals are false.
fn follow(clauses: &ClauseList, marks: &mut Marks, lits: &[Lit], hints: Hints<'_>) -> Option<Why>
    requires places { HasPlaces clauses.now.vars marks.old }
    requires marked { AreMarked marks.old lits.now }
    ensures answer { result ≡ hints_refusal clauses.now.known lits.now (ids_of hints.entry) }
    ensures places { HasPlaces clauses.now.vars marks.new }
{
    for i in 0..hints.len() {
        let last = i + 1 == hints.len();
        let Some(clause) = clauses.clause(hints.at(i)) else {
            return Some(Why::UnknownHint);
        };
        match look(marks, clause) {
            Opened::Nothing => {
                return if last { None } else { Some(Why::HintsLeft) };
            }
            Opened::One(lit) => {
                if last {
                    return Some(Why::NotFalse);
                }
                marks.mark(lit.negated());
            }
            Opened::Many => {
                return Some(if last { Why::NotFalse } else { Why::NotUnit });
            }
        }
    }
    Some(Why::NotFalse)
}
