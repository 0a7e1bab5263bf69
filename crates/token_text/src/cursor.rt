//! A cursor in a text, and the white space and comments that it passes over.
//!
//! A line is a comment where its first byte that is neither blank nor tab is `c`. So besides its place a cursor keeps
//! what stands before it in its line, and that alone says whether a `c` begins a comment or a word.
ghost use Rattle.std.specs.Prelude.{◌≡◌, ◌≢◌, ◌<◌, IfSome, IfNone, length, slice_index, false};
ghost use Rattle.token_text.specs.Tokens.{is_space, newline};
ghost use Rattle.token_text.specs.Cursor.{left_at, BeginsToken, IsWithin, Passes};

/// What stands before a cursor in its line.
#[derive(Clone, Copy)]
pub(crate) enum Before {
    /// Blanks and tabs alone.
    Blanks,
    /// Something else.
    Others,
    /// The `c` of a comment.
    Comment,
}

/// A place in a text: the bytes before it and before its line, the line's number from 1, and what stands before it.
#[derive(Clone, Copy)]
pub(crate) struct Cursor {
    pub(crate) at: usize,
    pub(crate) line_start: usize,
    pub(crate) line: u64,
    pub(crate) before: Before,
}

/// Passes over white space and comments, up to a token or the end.
pub(crate) fn pass_space(text: &[u8], from: Cursor) -> Cursor
    requires { IsWithin text.now from }
    ensures left { left_at text.now result ≡ left_at text.now from }
    ensures stops { result.at < length text.now → is_space (slice_index text.now result.at) ≡ false }
    ensures before { result.before ≡ Before.Others }
    ensures within { IsWithin text.now result }
{
    let mut end = text.len();
    let mut line = from.line;
    let mut line_start = from.line_start;
    let mut before = from.before;
    for at in from.at..text.len() {
        let byte = text[at];
        if byte == b'\n' {
            line += 1;
            line_start = at + 1;
            before = Before::Blanks;
        } else if let Some(next) = after(before, byte) {
            before = next;
        } else {
            end = at;
            break;
        }
    }
    Cursor {
        at: end,
        line_start,
        line,
        before: Before::Others,
    }
}

/// What stands before the next byte of a line, or none where a token begins at this one.
fn after(before: Before, byte: u8) -> Option<Before>
    requires { byte ≢ newline }
    ensures passes { IfSome result (Passes before byte) }
    ensures begins { IfNone result (BeginsToken before byte) }
{
    match (before, byte) {
        (Before::Comment, _) => Some(Before::Comment),
        (_, b' ' | b'\t') => Some(before),
        (_, b'\r') => Some(Before::Others),
        (Before::Blanks, b'c') => Some(Before::Comment),
        _ => None,
    }
}
