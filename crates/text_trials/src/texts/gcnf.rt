//! Problems: read from texts, made from numbers, and written.
use crate::shown::show_lines;
use gcnf_text::{Limit, Offence, Read, make_case, read_gcnf, write_gcnf};
use gm_base::{Clause, Problem};
use std::alloc::{AllocError, Global};
use trial_script::{Step, show};

/// Reads the text of the call, and tells the problem or the offence.
pub fn read_problem(
    alloc: Global,
    step: &Step<'_>,
    out: &mut String,
) -> Result<Option<Problem>, AllocError> {
    match read_gcnf(alloc, step.text()) {
        Read::Problem(problem) => {
            show_problem(&problem, out)?;
            Ok(Some(problem))
        }
        Read::Refused(offence) => {
            show_offence(offence, out)?;
            Ok(None)
        }
        Read::Memory => Err(AllocError),
    }
}

/// The problem of the call's seed and size, if there is one.
pub fn make_problem(alloc: Global, step: &Step<'_>) -> Result<Option<Problem>, AllocError> {
    let (Some(seed), Some(size)) = (step.amount(1), step.count(2)) else {
        return Ok(None);
    };
    if size < 1 || size > 1000 {
        return Ok(None);
    }
    Ok(Some(make_case(alloc, seed, size)?))
}

/// Tells of the problem what the call asks for.
pub fn call_problem(
    problem: Option<&Problem>,
    alloc: Global,
    step: &Step<'_>,
    out: &mut String,
) -> Result<bool, AllocError> {
    let Some(problem) = problem else {
        return Ok(false);
    };
    match step.word(0) {
        "counts" => show_counts(problem, out),
        "write" => show_lines(write_gcnf(alloc, problem)?.as_slice(), out),
        _ => show_clause_at(problem, step.amount(1), out),
    }
}

fn show_problem(problem: &Problem, out: &mut String) -> Result<bool, AllocError> {
    show_counts(problem, out)?;
    for at in 0..problem.len() {
        show_clause(problem.clause(at), out)?;
    }
    Ok(true)
}

fn show_counts(problem: &Problem, out: &mut String) -> Result<bool, AllocError> {
    let (vars, groups, clauses) = (problem.vars(), problem.groups(), problem.len());
    writeln!(out, "variables {vars} groups {groups} clauses {clauses}")?;
    Ok(true)
}

/// Tells the clause at a place, if there is one.
fn show_clause_at(
    problem: &Problem,
    at: Option<u64>,
    out: &mut String,
) -> Result<bool, AllocError> {
    let Some(at) = at else {
        return Ok(false);
    };
    if at >= problem.len() as u64 {
        return Ok(false);
    }
    show_clause(problem.clause(at as usize), out)
}

fn show_clause(clause: &Clause, out: &mut String) -> Result<bool, AllocError> {
    let group = clause.group;
    write!(out, "{{{group}}}")?;
    for lit in clause.lits.as_slice() {
        let number = lit.number();
        write!(out, " {number}")?;
    }
    show("", out)
}

fn show_offence(offence: Offence, out: &mut String) -> Result<bool, AllocError> {
    let number = offence.number;
    write!(out, "refused {number}")?;
    if let Some(limit) = offence.limit {
        out.push_str(name_of(limit))?;
    }
    let (line, byte) = (offence.line, offence.byte);
    writeln!(out, " at {line}:{byte}")?;
    Ok(true)
}

/// The limit's name, behind a blank.
fn name_of(limit: Limit) -> &'static str {
    match limit {
        Limit::Vars => " variables",
        Limit::Clauses => " clauses",
        Limit::Groups => " groups",
        Limit::Literals => " literals",
        Limit::Bytes => " bytes",
    }
}
