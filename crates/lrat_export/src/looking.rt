//! Clauses without the literals of selectors, where the marked literals are false.
ghost use Rattle.std.specs.Prelude.{◌≡◌, [], ◌∷◌, ◌++◌, List, ℤ, not, ◌&&◌, IsTrue};
ghost use Rattle.sat_base.specs.Literals.{IsLiteral};
ghost use Rattle.lrat_check.specs.Marks.{HasPlaces, AreMarked, is_marked};
ghost use Rattle.lrat_export.specs.Export.{is_selector, bared};
ghost use Rattle.lrat_export.specs.Walk.{IsOpened, opened};

use gm_base::Lit;
use lrat_check::Marks;

/// The literals of a clause that are neither of a selector nor false.
#[derive(Clone, Copy)]
pub enum Opened {
    Nothing,
    /// This one alone, which may be repeated.
    One(Lit),
    /// Two different ones, and maybe more.
    Many,
}

pub fn look(marks: &Marks, vars: u32, clause: &[Lit]) -> Opened
    requires { HasPlaces vars marks.now }
    ensures { IsOpened vars (opened vars marks.now clause.now) result }
{
    let mut open: Option<Lit> = None;
    for lit in clause {
        if is_open(marks, vars, *lit) {
            if let Some(first) = open {
                if first != *lit {
                    return Opened::Many;
                }
            }
            open = Some(*lit);
        }
    }
    match open {
        None => Opened::Nothing,
        Some(lit) => Opened::One(lit),
    }
}

fn is_open(marks: &Marks, vars: u32, lit: Lit) -> bool
    requires { HasPlaces vars marks.now }
    ensures is { result ≡ (not (is_selector vars lit) && not (is_marked marks.now lit)) }
    ensures over { IsTrue result → IsLiteral vars lit }
{
    lit.var() <= vars && !marks.is_marked(lit)
}

/// Marks the literals of a clause that are not of a selector.
pub fn mark_bared(marks: &mut Marks, vars: u32, lits: &[Lit])
    requires places { HasPlaces vars marks.old }
    requires clear { AreMarked marks.old [] }
    ensures places { HasPlaces vars marks.new }
    ensures marked { AreMarked marks.new (bared vars lits.now) }
{
    for lit in lits {
        mark_if_bared(marks, vars, *lit);
    }
}

fn mark_if_bared(marks: &mut Marks, vars: u32, lit: Lit)
    requires { HasPlaces vars marks.old }
    ensures places { HasPlaces vars marks.new }
    ensures marked { (falses : List ℤ) → AreMarked marks.old falses → AreMarked marks.new (falses ++ bared vars (lit ∷ [])) }
{
    if lit.var() <= vars {
        marks.mark(lit);
    }
}
