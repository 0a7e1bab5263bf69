//! The groups in focus: a LIST of numbers with single commas between them, in any order, also more than once.
//!
//! clap passes the text on as it is. It is cut at its commas, and each piece is read as the numbers of other options are. The
//! numbers are sorted, so a long LIST takes the time that a sort takes.
ghost use Rattle.std.specs.Prelude.{◌≡◌, ◌==◌, ◌<◌, All, IfOk, IfSome, map, option_map};
ghost use Rattle.std.specs.List.{slice_split};
ghost use Rattle.gm_base.specs.Sets.{IsGroupSet};
ghost use Rattle.gm_words.specs.Reading.{group_rule, number_by, numbers_in, set_in, set_of};

use crate::options::NumberOption;
use gm_base::GroupSet;
use std::alloc::{AllocError, Global};

/// A number of a LIST.
const GROUP: NumberOption = NumberOption {
    name: "focus",
    low: 1,
    high: 4_294_967_295,
};

/// The set that the text says. `None` is a text that is no LIST.
pub(crate) fn set_in(alloc: Global, text: &str) -> Result<Option<GroupSet>, AllocError>
    ensures { IfOk result (λ set. set ≡ set_in text.now) }
{
    let pieces = pieces_of(alloc, text)?;
    let Some(numbers) = numbers_in(alloc, pieces.as_slice())? else {
        return Ok(None);
    };
    let set = set_of(alloc, numbers)?;
    Ok(Some(set))
}

/// What stands between the commas.
fn pieces_of<'a>(alloc: Global, text: &'a str) -> Result<Vec<&'a str>, AllocError>
    ensures { IfOk result (λ pieces. map (λ piece. piece.now) pieces.items ≡ slice_split (λ letter. letter == 44) text.now) }
{
    text.split(',').collect(alloc)
}

/// The numbers that the pieces say. `None` is a piece that says none.
fn numbers_in(alloc: Global, pieces: &[&str]) -> Result<Option<Vec<u32>>, AllocError>
    ensures numbers { IfOk result (λ numbers. option_map (λ v. v.items) numbers ≡ numbers_in (map (λ piece. piece.now) pieces.now)) }
    ensures not_background { IfOk result (λ numbers. IfSome numbers (λ v. All (λ g. 0 < g) v.items)) }
{
    let mut numbers = Vec::with_capacity(alloc, pieces.len())?;
    for piece in pieces {
        match group_in(*piece) {
            Some(number) => numbers.push(number)?,
            None => return Ok(None),
        }
    }
    Ok(Some(numbers))
}

/// The number of a group that the piece says, if it says one.
fn group_in(piece: &str) -> Option<u32>
    ensures number { result ≡ number_by group_rule piece.now }
    ensures not_background { IfSome result (λ g. 0 < g) }
{
    let number = GROUP.number_by(piece)?;
    Some(number as u32)
}

/// The set of these numbers.
fn set_of(alloc: Global, numbers: Vec<u32>) -> Result<GroupSet, AllocError>
    requires { All (λ g. 0 < g) numbers.items }
    ensures { IfOk result (λ set. set ≡ set_of numbers.items) }
{
    let mut numbers = numbers;
    numbers.sort_unstable();
    numbers.dedup();
    ascending(alloc, numbers.as_slice())
}

/// The numbers, which are a set, as one.
fn ascending(alloc: Global, numbers: &[u32]) -> Result<GroupSet, AllocError>
    requires { IsGroupSet numbers.now }
    ensures { IfOk result (λ set. set ≡ numbers.now) }
{
    let mut set = GroupSet::new(alloc);
    for number in numbers {
        set.push(*number)?;
    }
    Ok(set)
}
