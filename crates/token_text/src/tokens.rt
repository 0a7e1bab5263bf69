//! The tokens of a text, one at a time.
//!
//! Contracts see [`Tokens`] as what is left of the text's list of tokens, with the place of the end. Its cursor stands at
//! the start of the text, behind a token or at the end. An answer first passes over white space and comments and then
//! reads one token, so a text is gone over once, whatever stands in it, and no memory is taken.
ghost use Rattle.std.specs.Prelude.{◌≡◌};
ghost use Rattle.token_text.specs.Tokens.{tokens_of, end_of};
ghost use Rattle.token_text.specs.Answers.{Gives};

use crate::answer::Answer;
use crate::cursor::{Before, Cursor, pass_space};
use crate::run::found_at;
use std::marker::Model;

/// The tokens of a text that are left, and the place of its end.
#[derive(Drop)]
pub struct Tokens<'a> {
    text: &'a [u8],
    cursor: Cursor,
}

impl<'a> Model for Tokens<'a> {
    ghost use Rattle.token_text.specs.Left.{Left};
    ghost use Rattle.token_text.specs.Cursor.{left_at, IsWithin};

    ghost Value = { Left };

    ghost view = { λ t. left_at t.text.now t.cursor };

    ghost invariant = { λ t. IsWithin t.text.now t.cursor };
}

impl<'a> Tokens<'a> {
    /// All tokens of the text.
    pub fn new(bytes: &'a [u8]) -> Tokens<'a>
        ensures tokens { result.tokens ≡ tokens_of bytes.now }
        ensures end { result.end ≡ end_of bytes.now }
    {
        Tokens {
            text: bytes,
            cursor: Cursor {
                at: 0,
                line_start: 0,
                line: 1,
                before: Before::Blanks,
            },
        }
    }

    /// The first token that is left, or the end, which is then answered again.
    pub fn next(&mut self) -> Answer<'a>
        ensures found { Gives self.old self.new result }
        ensures end { self.new.end ≡ self.old.end }
    {
        let text = self.text;
        let start = pass_space(text, self.cursor);
        let (found, end) = found_at(text, start.at);
        self.cursor = Cursor { at: end, ..start };
        Answer {
            found,
            line: start.line,
            byte: (start.at - start.line_start) as u64 + 1,
        }
    }
}
