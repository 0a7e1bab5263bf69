//! What the words of a call say: variables, literals, ids.
//!
//! Each reader answers none where the word there is no such thing, and then the call is not known.
ghost use Rattle.std.specs.Prelude.{◌≡◌, ◌<◌, ◌≤◌, ◌^◌, true, false, IfSome, IfOk};
ghost use Rattle.sat_base.specs.Literals.{IsLiteral, AreLiterals};
ghost use Rattle.sat_base.specs.Members.{In};

use sat_base::Lit;
use std::alloc::{AllocError, Global};
use trial_script::Step;

/// The greatest number of a variable.
pub const MOST: u32 = 2_147_483_647;

/// How many variables there are to be.
pub fn vars_at(step: &Step<'_>, at: usize) -> Option<u32>
    ensures { IfSome result (λ vars. vars < 2 ^ 31) }
{
    let vars = step.count(at)?;
    if vars <= MOST { Some(vars) } else { None }
}

/// The variable at this place of a call, where it is one of so many.
pub fn var_at(step: &Step<'_>, at: usize, vars: u32) -> Option<u32>
    ensures from_one { IfSome result (λ var. 0 < var) }
    ensures within { IfSome result (λ var. var ≤ vars) }
{
    let var = step.count(at)?;
    if var > 0 && var <= vars {
        Some(var)
    } else {
        None
    }
}

/// The literal of a number, where it is over so many variables.
pub fn literal(number: i128, vars: u32) -> Option<Lit>
    requires { vars < 2 ^ 31 }
    ensures { IfSome result (λ lit. IsLiteral vars lit) }
{
    let number = i32::try_from(number).ok()?;
    if number == 0 || number.unsigned_abs() > vars {
        return None;
    }
    Some(Lit::new(number))
}

/// The literal at this place of a call.
pub fn lit_at(step: &Step<'_>, at: usize, vars: u32) -> Option<Lit>
    requires { vars < 2 ^ 31 }
    ensures { IfSome result (λ lit. IsLiteral vars lit) }
{
    literal(step.number(at)?, vars)
}

/// The literals of a call from this place on.
pub fn lits_at(
    alloc: Global,
    step: &Step<'_>,
    from: usize,
    vars: u32,
) -> Result<Option<Vec<Lit>>, AllocError>
    requires { vars < 2 ^ 31 }
    ensures { IfOk result (λ found. IfSome found (λ lits. AreLiterals vars lits.items)) }
{
    let Some(numbers) = step.numbers(alloc, from)? else {
        return Ok(None);
    };
    let mut lits = Vec::with_capacity(alloc, numbers.len())?;
    for number in &numbers {
        let Some(lit) = literal(*number, vars) else {
            return Ok(None);
        };
        lits.push(lit)?;
    }
    Ok(Some(lits))
}

/// The ids of a call from this place on.
pub fn ids_at(alloc: Global, step: &Step<'_>, from: usize) -> Result<Option<Vec<u64>>, AllocError> {
    let Some(numbers) = step.numbers(alloc, from)? else {
        return Ok(None);
    };
    let mut ids = Vec::with_capacity(alloc, numbers.len())?;
    for number in &numbers {
        let Ok(id) = u64::try_from(*number) else {
            return Ok(None);
        };
        ids.push(id)?;
    }
    Ok(Some(ids))
}

/// The place behind this word of a call, or behind its end.
pub fn behind(step: &Step<'_>, word: &str) -> usize {
    let words = step.words();
    match words.iter().position(|other| *other == word) {
        Some(at) => at + 1,
        None => words.len(),
    }
}

/// Whether the literal is one of these.
pub fn is_among(lit: Lit, lits: &[Lit]) -> bool
    ensures yes { result ≡ true → In lit lits.now }
    ensures no { result ≡ false → ¬ In lit lits.now }
{
    for other in lits {
        if *other == lit {
            return true;
        }
    }
    false
}
