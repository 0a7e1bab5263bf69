//! Problems, by their texts.
use gcnf_text::{Read, read_gcnf};
use gm_base::{Clause, Problem};
use std::alloc::{AllocError, Global};

/// The problem of a text, if it is one's.
pub fn problem_of(alloc: Global, text: &[u8]) -> Result<Option<Problem>, AllocError> {
    match read_gcnf(alloc, text) {
        Read::Problem(problem) => Ok(Some(problem)),
        Read::Refused(_) => Ok(None),
        Read::Memory => Err(AllocError),
    }
}

/// Adds a clause: its group in braces, and its literals.
pub fn push_clause(clause: &Clause, out: &mut String) -> Result<(), AllocError> {
    let group = clause.group;
    write!(out, "{{{group}}}")?;
    for lit in clause.lits.as_slice() {
        let number = lit.number();
        write!(out, " {number}")?;
    }
    Ok(())
}
