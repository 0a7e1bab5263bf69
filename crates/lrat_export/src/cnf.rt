//! The clauses of a set of groups as a text of their own.
ghost use Rattle.std.specs.Prelude.{◌≡◌, ◌++◌, ◌+◌, [], ◌∷◌, codes, length, IfOk, OnOk};
ghost use Rattle.std.specs.List.{filter, flat_map};
ghost use Rattle.std.specs.Fmt.{decimal, signed_decimal};
ghost use Rattle.gm_base.specs.Problem.{is_present};
ghost use Rattle.lrat_export.specs.Cnf.{cnf_text, lits_text, line_of, lines_of};

use crate::table::GroupTable;
use gm_base::{Clause, GroupSet, Lit, Problem};
use std::alloc::{AllocError, Global};
use token_text::put_number;

/// The clauses of the background and of the groups of the set in DIMACS, in the problem's order.
pub fn cnf_of(alloc: Global, problem: &Problem, set: &GroupSet) -> Result<Vec<u8>, AllocError>
    ensures { IfOk result (λ text. text.items ≡ cnf_text problem.now set.now) }
{
    let table = GroupTable::new(alloc, set, problem.groups())?;
    cnf_by_table(alloc, problem, &table)
}

fn cnf_by_table(
    alloc: Global,
    problem: &Problem,
    set: &GroupTable<'_>,
) -> Result<Vec<u8>, AllocError>
    ensures { IfOk result (λ text. text.items ≡ cnf_text problem.now set.now) }
{
    let mut out = Vec::new(alloc);
    push_header(&mut out, problem.vars(), count_present(problem, set))?;
    push_present(&mut out, problem, set)?;
    Ok(out)
}

/// How many clauses are of the background or of a group of the set.
pub fn count_present(problem: &Problem, set: &GroupTable<'_>) -> usize
    ensures { result ≡ length (filter (is_present set.now) problem.now.clauses) }
{
    let mut count = 0;
    for at in 0..problem.len() {
        if is_present(problem.clause(at), set) {
            count += 1;
        }
    }
    count
}

pub fn is_present(clause: &Clause, set: &GroupTable<'_>) -> bool
    ensures { result ≡ is_present set.now clause.now }
{
    clause.group == 0 || set.contains(clause.group)
}

pub fn push_text(out: &mut Vec<u8>, text: &str) -> Result<(), AllocError>
    ensures { OnOk result (out.new.items ≡ out.old.items ++ text.now) }
{
    out.extend_from_slice(text.as_bytes())
}

fn push_header(out: &mut Vec<u8>, vars: u32, clauses: usize) -> Result<(), AllocError>
    ensures { OnOk result (out.new.items ≡ out.old.items ++ (codes "p cnf " ++ decimal vars ++ codes " " ++ decimal clauses ++ codes "\n")) }
{
    push_text(out, "p cnf ")?;
    put_number(out, i128::from(vars))?;
    push_text(out, " ")?;
    put_number(out, i128::from(clauses as u64))?;
    push_text(out, "\n")
}

/// The clauses that are of the background or of a group of the set, each on a line.
fn push_present(
    out: &mut Vec<u8>,
    problem: &Problem,
    set: &GroupTable<'_>,
) -> Result<(), AllocError>
    ensures { OnOk result (out.new.items ≡ out.old.items ++ lines_of set.now problem.now.clauses) }
{
    for at in 0..problem.len() {
        push_if_present(out, problem.clause(at), set)?;
    }
    Ok(())
}

fn push_if_present(
    out: &mut Vec<u8>,
    clause: &Clause,
    set: &GroupTable<'_>,
) -> Result<(), AllocError>
    ensures { OnOk result (out.new.items ≡ out.old.items ++ line_of set.now clause.now) }
{
    if !is_present(clause, set) {
        return Ok(());
    }
    push_lits(out, clause.lits.as_slice())?;
    push_text(out, "\n")
}

/// Literals, each before a blank, and 0.
fn push_lits(out: &mut Vec<u8>, lits: &[Lit]) -> Result<(), AllocError>
    ensures { OnOk result (out.new.items ≡ out.old.items ++ lits_text lits.now) }
{
    push_each(out, lits)?;
    push_text(out, "0")
}

fn push_each(out: &mut Vec<u8>, lits: &[Lit]) -> Result<(), AllocError>
    ensures { OnOk result (out.new.items ≡ out.old.items ++ flat_map (λ l. signed_decimal l ++ codes " ") lits.now) }
{
    for lit in lits {
        push_lit(out, *lit)?;
    }
    Ok(())
}

pub fn push_lit(out: &mut Vec<u8>, lit: Lit) -> Result<(), AllocError>
    ensures { OnOk result (out.new.items ≡ out.old.items ++ (signed_decimal lit ++ codes " ")) }
{
    put_number(out, i128::from(lit.number()))?;
    push_text(out, " ")
}
