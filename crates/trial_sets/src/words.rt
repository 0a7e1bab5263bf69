//! The words of a call or a move: parts with a `:` between them, and the numbers, sets and values in a part.
ghost use Rattle.gm_base.specs.Sets.{IsSubset, all_groups};
ghost use Rattle.std.specs.Prelude.{◌≡◌, IfOk, IfSome, length};

use gm_base::{Assign, AssignBuilder, GroupSet};
use lawful_fakes::Lacking;
use lawful_fakes::example::set_of;
use std::alloc::Global;
use trial_script::{Step, has_digit};

/// All values of two variables.
pub const ALL: [(bool, bool); 4] = [(false, false), (false, true), (true, false), (true, true)];

/// The lines of the text of a call.
pub fn lines_of<'a>(step: &'a Step<'_>) -> &'a str {
    std::str::from_utf8(step.text()).unwrap_or("")
}

/// The words of a part, counted from 0.
pub fn part_of<'a, 'b>(words: &'a [&'b str], part: usize) -> &'a [&'b str] {
    let mut rest = words;
    for _ in 0..part {
        let Some(at) = rest.iter().position(|word| *word == ":") else {
            return &words[..0];
        };
        rest = &rest[at + 1..];
    }
    match rest.iter().position(|word| *word == ":") {
        Some(at) => &rest[..at],
        None => rest,
    }
}

/// How many parts there are.
pub fn parts_in(step: &Step<'_>) -> usize {
    let colons = step.words().iter().filter(|word| **word == ":").count();
    colons.saturating_add(1)
}

/// The numbers in a part. Words without a digit are passed over.
pub fn numbers_in(alloc: Global, step: &Step<'_>, part: usize) -> Result<Vec<u32>, Lacking> {
    let mut numbers = Vec::new(alloc);
    for word in part_of(step.words(), part) {
        match word.parse::<u32>() {
            Ok(number) => numbers.push(number)?,
            Err(_) => without_digit(word)?,
        }
    }
    Ok(numbers)
}

/// Refuses a word with a digit, which was meant as a number, or as values.
pub fn without_digit(word: &str) -> Result<(), Lacking> {
    if has_digit(word) {
        Err(Lacking::Evidence)
    } else {
        Ok(())
    }
}

/// The number at a place of a part, where there is one.
pub fn number_at(alloc: Global, step: &Step<'_>, part: usize, at: usize) -> Result<u32, Lacking> {
    let numbers = numbers_in(alloc, step, part)?;
    match numbers.get(at) {
        Some(number) => Ok(*number),
        None => Err(Lacking::Evidence),
    }
}

/// The set in a part, where there are so many groups.
pub fn set_in(alloc: Global, step: &Step<'_>, part: usize, groups: u32) -> Result<GroupSet, Lacking>
    ensures { IfOk result (λ set. IsSubset set (all_groups groups)) }
{
    let numbers = numbers_in(alloc, step, part)?;
    set_of(alloc, groups, numbers.as_slice())
}

/// The values in a part, where there are so many variables.
pub fn values_in(alloc: Global, step: &Step<'_>, part: usize, vars: u32) -> Result<Assign, Lacking>
    ensures { IfOk result (λ assign. length assign ≡ vars) }
{
    let [word] = part_of(step.words(), part) else {
        return Err(Lacking::Evidence);
    };
    let bits = word.as_bytes();
    if bits.len() != vars as usize {
        return Err(Lacking::Evidence);
    }
    let mut builder = AssignBuilder::all_false(alloc, vars)?;
    for at in 0..vars {
        builder.set(at + 1, bits[at as usize] == b'1');
    }
    Ok(builder.finish(alloc)?)
}

/// The values of two variables that the words of a part are. Words without a digit are passed over.
pub fn pairs_in(alloc: Global, step: &Step<'_>, part: usize) -> Result<Vec<(bool, bool)>, Lacking> {
    let mut pairs = Vec::new(alloc);
    for word in part_of(step.words(), part) {
        match pair_of(word) {
            Some(pair) => pairs.push(pair)?,
            None => without_digit(word)?,
        }
    }
    Ok(pairs)
}

/// The values of two variables that a word is.
pub fn pair_of(word: &str) -> Option<(bool, bool)> {
    match word {
        "00" => Some((false, false)),
        "01" => Some((false, true)),
        "10" => Some((true, false)),
        "11" => Some((true, true)),
        _ => None,
    }
}

/// Whether a word stands in the call or move.
pub fn has_word(step: &Step<'_>, wanted: &str) -> bool {
    step.words().contains(&wanted)
}
