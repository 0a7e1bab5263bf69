//! One call of a script: its words and its text.
use std::alloc::{AllocError, Global};

/// A call of a script.
#[derive(Drop)]
pub struct Step<'a> {
    line: &'a str,
    words: Vec<&'a str>,
    text: Vec<u8>,
}

impl<'a> Step<'a> {
    /// The call of this line, with no text yet.
    pub fn new(alloc: Global, line: &'a str) -> Result<Self, AllocError> {
        let mut words = Vec::new(alloc);
        for word in line.split(' ') {
            words.push(word)?;
        }
        Ok(Step {
            line,
            words,
            text: Vec::new(alloc),
        })
    }

    /// The whole line.
    pub fn line(&self) -> &'a str {
        self.line
    }

    /// The words, the name of the call first. Two blanks in a row have an empty word between them.
    pub fn words(&self) -> &[&'a str] {
        self.words.as_slice()
    }

    /// The word at this place, from 0, or an empty one.
    pub fn word(&self, at: usize) -> &'a str {
        match self.words.get(at) {
            Some(word) => word,
            None => "",
        }
    }

    /// The number that the word at this place is, if it is one.
    pub fn number(&self, at: usize) -> Option<i128> {
        self.word(at).parse::<i128>().ok()
    }

    /// The numbers from this place on, up to the first word that is none; or nothing, where that word has a digit, since it
    /// was meant as one.
    pub fn numbers(&self, alloc: Global, from: usize) -> Result<Option<Vec<i128>>, AllocError> {
        let mut numbers = Vec::new(alloc);
        for at in from..self.words.len() {
            let Some(number) = self.number(at) else {
                return Ok(if has_digit(self.word(at)) {
                    None
                } else {
                    Some(numbers)
                });
            };
            numbers.push(number)?;
        }
        Ok(Some(numbers))
    }

    /// The text below the call.
    pub fn text(&self) -> &[u8] {
        self.text.as_slice()
    }

    /// Adds a line of text, with an end or without.
    pub fn push_text(&mut self, line: &str, has_end: bool) -> Result<(), AllocError> {
        let mut rest = line.as_bytes();
        for _ in 0..line.len() {
            let Some((byte, behind)) = first_byte(rest) else {
                break;
            };
            self.text.push(byte)?;
            rest = behind;
        }
        if has_end {
            self.text.push(b'\n')?;
        }
        Ok(())
    }
}

/// Whether a digit stands in the word, so that it is a number or was meant as one.
pub fn has_digit(word: &str) -> bool {
    word.bytes().any(|byte| byte.is_ascii_digit())
}

/// The byte that the text begins with, and what is behind it: `\r`, `\t`, `\\` and `\x0b` are each one byte.
fn first_byte(text: &[u8]) -> Option<(u8, &[u8])> {
    match text {
        [b'\\', b'r', behind @ ..] => Some((b'\r', behind)),
        [b'\\', b't', behind @ ..] => Some((b'\t', behind)),
        [b'\\', b'\\', behind @ ..] => Some((b'\\', behind)),
        [b'\\', b'x', high, low, behind @ ..] => {
            Some((hex(*high).wrapping_mul(16).wrapping_add(hex(*low)), behind))
        }
        [byte, behind @ ..] => Some((*byte, behind)),
        [] => None,
    }
}

/// The value of a digit of base 16.
fn hex(digit: u8) -> u8 {
    match digit {
        b'0'..=b'9' => digit.wrapping_sub(b'0'),
        b'a'..=b'f' => digit.wrapping_sub(b'a').wrapping_add(10),
        _ => 0,
    }
}
