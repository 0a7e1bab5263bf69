//! What is wrong with a text that is refused.
ghost use Rattle.std.specs.Prelude.{◌≡◌, Some, None};
ghost use Rattle.gcnf_text.specs.Names.{offence_name};
ghost use Rattle.gcnf_text.specs.Table.{offence_at};
ghost use Rattle.gcnf_text.specs.declared.offence.Stop.TheVariants as stop;

use std::alloc::{AllocError, AllocFailed};
use token_text::Answer;

/// A limit of this reader.
#[derive(Clone, Copy)]
pub enum Limit {
    /// Variables.
    Vars,
    /// Clauses.
    Clauses,
    /// Groups.
    Groups,
    /// Literals in all clauses.
    Literals,
    /// Bytes of the text.
    Bytes,
}

/// An offence by its number, from 1 to 9, the limit that it goes beyond, and its line and byte, both counted from 1.
///
/// 1 is no header, 2 a bad header, 3 a token that may not come there, 4 a variable above the greatest, 5 a group above
/// the greatest, 6 a clause without its group, 7 a text that ends too early, 8 a clause too many, and 9 what is above a
/// limit. A text with too many bytes has line 0 and byte 0.
#[derive(Clone, Copy)]
pub struct Offence {
    pub number: u32,
    pub limit: Option<Limit>,
    pub line: u64,
    pub byte: u64,
}

/// The first token is not `p`, or there is none.
pub(crate) const NO_HEADER: u32 = 1;

/// The header goes on otherwise, or the text ends in it.
pub(crate) const BAD_HEADER: u32 = 2;

/// A token may not come here.
pub(crate) const BAD_TOKEN: u32 = 3;

/// A literal's variable is above the greatest.
pub(crate) const VAR_TOO_BIG: u32 = 4;

/// A group is above the greatest.
pub(crate) const GROUP_TOO_BIG: u32 = 5;

/// A number stands where a clause's group is due.
pub(crate) const NO_GROUP: u32 = 6;

/// The text ends in a clause, or with fewer clauses than the header says.
pub(crate) const TRUNCATED: u32 = 7;

/// A brace or a number stands behind the last clause.
pub(crate) const TOO_MANY_CLAUSES: u32 = 8;

/// A number, or the text, is above a limit.
pub(crate) const TOO_LARGE: u32 = 9;

impl Offence {
    /// The offence's name, as the line of a refusal has it behind the number.
    pub fn name(self) -> &'static str
        ensures { result.now ≡ offence_name self.number }
    {
        match self.number {
            NO_HEADER => "NoHeader",
            BAD_HEADER => "BadHeader",
            BAD_TOKEN => "BadToken",
            VAR_TOO_BIG => "VarTooBig",
            GROUP_TOO_BIG => "GroupTooBig",
            NO_GROUP => "NoGroup",
            TRUNCATED => "Truncated",
            TOO_MANY_CLAUSES => "TooManyClauses",
            _ => "TooLarge",
        }
    }
}

/// The offence of what was found there.
pub(crate) fn refusal(number: u32, answer: Answer<'_>) -> Offence
    ensures { result ≡ offence_at number None answer.entry.line answer.entry.byte }
{
    Offence {
        number,
        limit: None,
        line: answer.line,
        byte: answer.byte,
    }
}

/// The offence of what goes beyond this limit there.
pub(crate) fn too_large(limit: Limit, answer: Answer<'_>) -> Offence
    ensures { result ≡ offence_at 9 (Some limit) answer.entry.line answer.entry.byte }
{
    Offence {
        limit: Some(limit),
        ..refusal(TOO_LARGE, answer)
    }
}

/// Why a reading stops before the end of an accepted text.
#[derive(Drop)]
pub(crate) enum Stop {
    Refused(Offence),
    Memory,
}

impl From<Offence> for Stop {
    ghost from_gives = { λ offence e. e ≡ stop.Refused offence };

    fn from(offence: Offence) -> Stop {
        Stop::Refused(offence)
    }
}

impl From<AllocError> for Stop {
    ghost from_gives = { λ _ e. e ≡ stop.Memory };

    fn from(_error: AllocError) -> Stop {
        Stop::Memory
    }
}

impl<T: Drop> From<AllocFailed<T>> for Stop {
    ghost from_gives = { λ _ e. e ≡ stop.Memory };

    fn from(_error: AllocFailed<T>) -> Stop {
        Stop::Memory
    }
}
