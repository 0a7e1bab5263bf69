//! What is printed: each answer is a line of words.
use sat_base::Lit;
use std::alloc::AllocError;

/// Adds a word and a number to the line.
pub fn add(out: &mut String, word: &str, number: u64) -> Result<(), AllocError> {
    write!(out, "{word} {number}")
}

/// Adds a word, and an id where there is one.
pub fn add_id(out: &mut String, word: &str, id: Option<u64>) -> Result<(), AllocError> {
    match id {
        Some(id) => add(out, word, id),
        None => write!(out, "{word} none"),
    }
}

/// Adds a word, and a literal where there is one.
pub fn add_lit(out: &mut String, word: &str, lit: Option<Lit>) -> Result<(), AllocError> {
    match lit {
        Some(lit) => {
            let number = lit.number();
            write!(out, "{word} {number}")
        }
        None => write!(out, "{word} none"),
    }
}

/// Adds the numbers of literals, each behind a blank.
pub fn add_lits(out: &mut String, lits: &[Lit]) -> Result<(), AllocError> {
    for lit in lits {
        add_lit(out, "", Some(*lit))?;
    }
    Ok(())
}

/// Adds ids, each behind a blank.
pub fn add_ids(out: &mut String, ids: &[u64]) -> Result<(), AllocError> {
    for id in ids {
        add(out, "", *id)?;
    }
    Ok(())
}

/// A line of a word alone.
pub fn tell(out: &mut String, word: &str) -> Result<(), AllocError> {
    writeln!(out, "{word}")
}

/// A line of a word, and a number.
pub fn tell_number(out: &mut String, word: &str, number: u64) -> Result<(), AllocError> {
    writeln!(out, "{word} {number}")
}

/// A line of a word, and an id where there is one.
pub fn tell_id(out: &mut String, word: &str, id: Option<u64>) -> Result<(), AllocError> {
    add_id(out, word, id)?;
    out.push_str("\n")
}

/// A line of a word, and a literal where there is one.
pub fn tell_lit(out: &mut String, word: &str, lit: Option<Lit>) -> Result<(), AllocError> {
    add_lit(out, word, lit)?;
    out.push_str("\n")
}

/// A line of a word, and literals.
pub fn tell_lits(out: &mut String, word: &str, lits: &[Lit]) -> Result<(), AllocError> {
    out.push_str(word)?;
    add_lits(out, lits)?;
    out.push_str("\n")
}

/// A line of a word, and numbers with their signs.
pub fn tell_signed(out: &mut String, word: &str, numbers: &[i32]) -> Result<(), AllocError> {
    out.push_str(word)?;
    for number in numbers {
        write!(out, " {number}")?;
    }
    out.push_str("\n")
}
