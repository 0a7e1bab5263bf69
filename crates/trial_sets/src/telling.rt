//! Lines of an answer.
use gm_base::Derivation;
use lrat_steps::Log;
use std::alloc::{AllocError, Global};
use trial_script::Step;

/// Adds a line.
pub fn say(out: &mut String, line: &str) -> Result<(), AllocError> {
    out.push_str(line)?;
    out.push('\n')
}

/// Adds numbers, each behind a blank.
pub fn add_numbers(out: &mut String, numbers: &[u32]) -> Result<(), AllocError> {
    for number in numbers {
        write!(out, " {number}")?;
    }
    Ok(())
}

/// Adds a line of a word and numbers.
pub fn say_numbers(out: &mut String, word: &str, numbers: &[u32]) -> Result<(), AllocError> {
    out.push_str(word)?;
    add_numbers(out, numbers)?;
    out.push('\n')
}

/// Adds a line that a move isn't known, or that its numbers don't fit.
pub fn say_unknown(out: &mut String, step: &Step<'_>) -> Result<(), AllocError> {
    let line = step.line();
    writeln!(out, "? {line}")
}

/// Adds what a text asks of the log that is left of an oracle or a map, once that is gone: the lines `inputs`, `learnt` and
/// `steps`.
pub fn say_log(log: &Log, lines: &str, out: &mut String) -> Result<(), AllocError> {
    for line in lines.split('\n') {
        say_of_log(log, line, out)?;
    }
    Ok(())
}

fn say_of_log(log: &Log, line: &str, out: &mut String) -> Result<(), AllocError> {
    match line {
        "inputs" => say_count(out, line, log.inputs()),
        "learnt" => say_count(out, line, log.learned()),
        "steps" => say_count(out, line, log.len()),
        _ => Ok(()),
    }
}

/// Adds a line of a word and a number.
pub fn say_count(out: &mut String, word: &str, count: u64) -> Result<(), AllocError> {
    writeln!(out, "{word} {count}")
}

/// Adds a line on a derivation: the clause that it is made for, if that is one of so many that were given; else the clause
/// of its last step, with a 0 behind it, if its steps are numbered right behind those.
pub fn say_proof(
    alloc: Global,
    out: &mut String,
    proof: &Derivation,
    given: usize,
) -> Result<(), AllocError> {
    let Some(last) = proof.len().checked_sub(1) else {
        return say_count(out, "clause", proof.goal());
    };
    if proof.goal().checked_sub(given as u64) != Some(proof.len() as u64) {
        return say(out, "wrong");
    }
    let mut numbers = Vec::new(alloc);
    for lit in proof.step(last).lits {
        numbers.push(lit.number())?;
    }
    numbers.sort_unstable();
    say_clause(out, numbers.as_slice())
}

/// Adds a line of a clause, the last number first.
fn say_clause(out: &mut String, numbers: &[i32]) -> Result<(), AllocError> {
    out.push_str("proof of")?;
    for number in numbers.iter().rev() {
        write!(out, " {number}")?;
    }
    say(out, " 0")
}
