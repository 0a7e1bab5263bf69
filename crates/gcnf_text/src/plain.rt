//! The plain text of a problem.
//!
//! Of the many texts that are read as a problem one is plain: a line a clause, single blanks and no comments. What is written
//! of a problem within the limits can be read again, unless its clauses are so many that the text is too long.
ghost use Rattle.std.specs.Prelude.{◌≡◌, ◌≤◌, ◌++◌, codes, length, OnOk, IfOk};
ghost use Rattle.std.specs.List.{flat_map};
ghost use Rattle.std.specs.Fmt.{decimal};
ghost use Rattle.gcnf_text.specs.Grammar.{IsWithinLimits, Reads, max_bytes};
ghost use Rattle.gcnf_text.specs.Plain.{clause_line, header_line, literals_text, plain_text};

use gm_base::{Clause, Lit, Problem};
use std::alloc::{AllocError, Global};
use token_text::put_number;

/// The plain text of a problem, in one pass over its clauses.
pub fn write_gcnf(alloc: Global, problem: &Problem) -> Result<Vec<u8>, AllocError>
    ensures text { IfOk result (λ text. text.items ≡ plain_text problem.now) }
    ensures read_back { IfOk result (λ text. IsWithinLimits problem.now → length text.items ≤ max_bytes → Reads text.items problem.now) }
{
    let mut out = Vec::new(alloc);
    push_header(&mut out, problem)?;
    push_clauses(&mut out, problem)?;
    let _groups = problem.groups();
    Ok(out)
}

fn push_text(out: &mut Vec<u8>, text: &str) -> Result<(), AllocError>
    ensures { OnOk result (out.new.items ≡ out.old.items ++ text.now) }
{
    out.extend_from_slice(text.as_bytes())
}

/// Text, and a number behind it.
fn push_count(out: &mut Vec<u8>, text: &str, number: u64) -> Result<(), AllocError>
    ensures { OnOk result (out.new.items ≡ out.old.items ++ text.now ++ decimal number) }
{
    push_text(out, text)?;
    put_number(out, i128::from(number))
}

fn push_header(out: &mut Vec<u8>, problem: &Problem) -> Result<(), AllocError>
    ensures { OnOk result (out.new.items ≡ out.old.items ++ header_line problem.now) }
{
    push_count(out, "p gcnf ", u64::from(problem.vars()))?;
    push_count(out, " ", problem.len() as u64)?;
    push_count(out, " ", u64::from(problem.groups()))?;
    push_text(out, "\n")
}

fn push_clauses(out: &mut Vec<u8>, problem: &Problem) -> Result<(), AllocError>
    ensures { OnOk result (out.new.items ≡ out.old.items ++ flat_map clause_line problem.now.clauses) }
{
    for at in 0..problem.len() {
        push_clause(out, problem.clause(at))?;
    }
    Ok(())
}

fn push_clause(out: &mut Vec<u8>, clause: &Clause) -> Result<(), AllocError>
    ensures { OnOk result (out.new.items ≡ out.old.items ++ clause_line clause.now) }
{
    push_count(out, "{", u64::from(clause.group))?;
    push_text(out, "}")?;
    push_literals(out, clause.lits.as_slice())?;
    push_text(out, " 0\n")
}

/// Literals, each behind a blank.
fn push_literals(out: &mut Vec<u8>, lits: &[Lit]) -> Result<(), AllocError>
    ensures { OnOk result (out.new.items ≡ out.old.items ++ literals_text lits.now) }
{
    for lit in lits {
        push_text(out, " ")?;
        put_number(out, i128::from(lit.number()))?;
    }
    Ok(())
}
