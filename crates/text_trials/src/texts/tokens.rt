//! The tokens of a text, and digits.
use crate::shown::show_text;
use std::alloc::{AllocError, Global};
use token_text::{Answer, Found, Tokens, put_number};
use trial_script::{Step, show};

/// Tells so many answers as the call says, or those up to the first end.
pub fn show_tokens(step: &Step<'_>, out: &mut String) -> Result<bool, AllocError> {
    let mut tokens = Tokens::new(step.text());
    let most = step.amount(1);
    for _ in 0..most.unwrap_or(u64::MAX) {
        let answer = tokens.next();
        show_answer(answer, out)?;
        if most.is_none() && matches!(answer.found, Found::End) {
            break;
        }
    }
    Ok(true)
}

fn show_answer(answer: Answer<'_>, out: &mut String) -> Result<bool, AllocError> {
    let Answer { found, line, byte } = answer;
    write!(out, "{line}:{byte} ")?;
    match found {
        Found::Word(word) => {
            out.push_str("word ")?;
            show_text(word, out)
        }
        Found::Number(number) => {
            writeln!(out, "number {number}")?;
            Ok(true)
        }
        Found::OpenBrace => show("{", out),
        Found::CloseBrace => show("}", out),
        Found::End => show("end", out),
    }
}

/// Tells the digits of the numbers behind the first word, put behind one another, each with a blank behind it.
pub fn show_digits(alloc: Global, step: &Step<'_>, out: &mut String) -> Result<bool, AllocError> {
    let Some(numbers) = step.numbers(alloc, 1)? else {
        return Ok(false);
    };
    let mut digits = Vec::new(alloc);
    for number in numbers {
        put_number(&mut digits, number)?;
        digits.push(b' ')?;
    }
    show_text(digits.as_slice(), out)
}
