//! What is found at a place of a text.

/// A token, or the end of the text.
#[derive(Clone, Copy)]
pub enum Found<'a> {
    /// A run of bytes that is no number.
    Word(&'a [u8]),
    /// A number; one beyond an `i64`'s greatest value in absolute value is told as that value with its sign.
    Number(i64),
    /// `{`
    OpenBrace,
    /// `}`
    CloseBrace,
    /// The end of the text.
    End,
}

/// What is found, with its line and its byte in that line, both counted from 1.
#[derive(Clone, Copy)]
pub struct Answer<'a> {
    pub found: Found<'a>,
    pub line: u64,
    pub byte: u64,
}
