//! The lines of a text, one at a time.
ghost use Rattle.std.specs.Prelude.{◌≡◌, ◌+◌, ◌<◌, ◌^◌, [], ◌∷◌, length, IfSome, IfNone, OnSome};
ghost use Rattle.evidence_text.specs.Lines.{lines_of, unended, words_of};

use crate::words::behind;
use memchr::memchr;

/// The bytes of a text that are left, from the beginning of a line on, and the number of that line, from 1.
#[derive(Clone, Copy, Debug)]
pub(crate) struct Lines<'a> {
    pub(crate) rest: &'a [u8],
    pub(crate) at: u64,
    ghost few: { at + length rest.now < 2 ^ 64 },
}

impl<'a> Lines<'a> {
    ghost use Rattle.evidence_text.specs.Reading.{below};
    ghost use Rattle.evidence_text.specs.Cursors.{left_of, rest_of};

    /// All lines of a text.
    pub(crate) fn new(text: &'a [u8]) -> Lines<'a>
        ensures left { left_of result ≡ below 1 (lines_of text.now) }
        ensures rest { rest_of result ≡ unended text.now }
    {
        Lines { rest: text, at: 1 }
    }

    /// The next line, without its LF; none where no line ends any more.
    #[inline]
    pub(crate) fn next(&mut self) -> Option<&'a [u8]>
        ensures some { IfSome result (λ line. lines_of self.old.rest.now ≡ words_of line.now ∷ lines_of self.new.rest.now) }
        ensures at { OnSome result (self.new.at ≡ self.old.at + 1) }
        ensures rest { OnSome result (unended self.new.rest.now ≡ unended self.old.rest.now) }
        ensures shorter { OnSome result (length self.new.rest.now < length self.old.rest.now) }
        ensures none { IfNone result (lines_of self.old.rest.now ≡ []) }
    {
        let text = self.rest;
        match memchr(b'\n', text) {
            None => None,
            Some(end) => {
                *self = Lines {
                    rest: behind(text, end + 1),
                    at: self.at + 1,
                };
                Some(&text[..end])
            },
        }
    }
}
