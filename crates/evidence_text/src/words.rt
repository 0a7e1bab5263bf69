//! The words of a line, one at a time.
//!
//! A cursor stands behind a word: at the blank that follows it, or at the end of the line. So an empty word is read as one,
//! and the end of a line as none.
ghost use Rattle.std.specs.Prelude.{◌≡◌, ◌<◌, ◌≤◌, ◌^◌, ◌==◌, IsTrue, length, drop, slice_index, OnOk, IfOk, IfSome};
ghost use Rattle.std.specs.List.{prefix_len, take_while};
ghost use Rattle.evidence_text.specs.Lines.{words_of};
ghost use Rattle.evidence_text.specs.Reading.{letter_of, behind, word_at, number_at, number_in, literal_in};
ghost use Rattle.evidence_text.specs.Scan.{is_inner};
ghost use Rattle.evidence_text.specs.Items.{within, item_of, literal_item_of};
ghost use Rattle.evidence_text.specs.Cursors.{words_left, Reads, ReadsWord, ReadsEnd, ReadsItem, ReadsAscending};

use crate::scan::{Scanned, scan};
use gm_base::Lit;
use lrat_check::Why;
use memchr::memchr;

/// The bytes of a line that are left, from behind a word on: a blank and the next word, or none.
#[derive(Clone, Copy, Debug)]
pub(crate) struct Words<'a> {
    pub(crate) rest: &'a [u8],
}

/// The bytes from a place on.
#[inline(always)]
pub(crate) fn behind(bytes: &[u8], at: usize) -> &[u8]
    requires { at ≤ length bytes.now }
    ensures { result.now ≡ drop at bytes.now }
{
    &bytes[at..]
}

/// Where the word at the front ends. Most are single letters.
#[inline(always)]
fn word_end(bytes: &[u8]) -> usize
    ensures end { result ≡ prefix_len is_inner bytes.now }
    ensures within { result ≤ length bytes.now }
{
    if is_single(bytes) {
        return 1;
    }
    match memchr(b' ', bytes) {
        Some(end) => end,
        None => bytes.len(),
    }
}

/// Whether the word at the front is one byte, with a blank behind it.
#[inline(always)]
fn is_single(bytes: &[u8]) -> bool
    ensures single { IsTrue result → prefix_len is_inner bytes.now ≡ 1 }
    ensures long { IsTrue result → 1 < length bytes.now }
{
    bytes.len() > 1 && bytes[0] != b' ' && bytes[1] == b' '
}

/// A word at the front, and what stands behind it.
#[inline(always)]
fn word_and_rest(bytes: &[u8]) -> (&[u8], &[u8])
    ensures word { result.0.now ≡ take_while is_inner bytes.now }
    ensures rest { result.1.now ≡ drop (length (take_while is_inner bytes.now)) bytes.now }
{
    let end = word_end(bytes);
    (&bytes[..end], behind(bytes, end))
}

/// The letter that a line begins with, 0 where its first word is no single byte, and the words behind that word.
#[inline(always)]
pub(crate) fn first_word<'a>(line: &'a [u8]) -> (u8, Words<'a>)
    ensures letter { result.0 ≡ letter_of (words_of line.now) }
    ensures behind { words_left result.1 ≡ behind (words_of line.now) }
{
    let (word, rest) = word_and_rest(line);
    if word.len() == 1 {
        (word[0], Words { rest })
    } else {
        (0, Words { rest })
    }
}

impl<'a> Words<'a> {
    /// This word.
    pub(crate) fn word(&mut self, due: &[u8]) -> Result<(), Why>
        ensures { ReadsWord result (words_left self.new) (word_at due.now (words_left self.old)) }
    {
        if self.rest.is_empty() {
            return Err(Why::BadLine);
        }
        let (word, rest) = word_and_rest(behind(self.rest, 1));
        if word == due {
            self.rest = rest;
            Ok(())
        } else {
            Err(Why::BadLine)
        }
    }

    /// A number from `low` to `high`.
    #[inline(always)]
    pub(crate) fn number(&mut self, low: u64, high: u64) -> Result<u64, Why>
        ensures read { Reads (λ n. n) result (words_left self.new) (number_at low high (words_left self.old)) }
        ensures in_range { IfOk result (λ n. n ≤ high) }
    {
        if self.rest.is_empty() {
            return Err(Why::BadLine);
        }
        let Scanned { end, number } = scan(self.rest, 1);
        self.rest = behind(self.rest, end);
        match narrowed(number, low, high) {
            Some(n) => Ok(n),
            None => Err(Why::BadNumber),
        }
    }

    /// A number from 1 to `high` that is above `last`, or the 0 behind the numbers.
    #[inline(always)]
    pub(crate) fn above(&mut self, last: u64, high: u64) -> Result<Option<u64>, Why>
        ensures ascending { ReadsAscending result last high (words_left self.old) (words_left self.new) }
        ensures item { last ≡ 0 → ReadsItem (λ n. n) result (number_in 1 high) (words_left self.old) (words_left self.new) }
        ensures above { IfOk result (λ o. IfSome o (λ n. last < n)) }
        ensures in_range { IfOk result (λ o. IfSome o (λ n. n ≤ high)) }
        ensures shorter { OnOk result (length self.new.rest.now < length self.old.rest.now) }
    {
        if self.rest.is_empty() {
            return Err(Why::BadLine);
        }
        let Scanned { end, number } = scan(self.rest, 1);
        self.rest = behind(self.rest, end);
        item_above(number, last, high)
    }

    /// A literal over the variables up to `vars`, or the 0 behind the literals.
    #[inline(always)]
    pub(crate) fn literal(&mut self, vars: u32) -> Result<Option<Lit>, Why>
        requires { vars < 2 ^ 31 }
        ensures item { ReadsItem (λ l. l) result (literal_in vars) (words_left self.old) (words_left self.new) }
        ensures shorter { OnOk result (length self.new.rest.now < length self.old.rest.now) }
    {
        if self.rest.is_empty() {
            return Err(Why::BadLine);
        }
        if is_minus(self.rest) {
            let Scanned { end, number } = scan(self.rest, 2);
            self.rest = behind(self.rest, end);
            literal_item(number, true, vars)
        } else {
            let Scanned { end, number } = scan(self.rest, 1);
            self.rest = behind(self.rest, end);
            literal_item(number, false, vars)
        }
    }

    /// The end of the line.
    #[inline(always)]
    pub(crate) fn end(&self) -> Result<(), Why>
        ensures { ReadsEnd result (words_left self.now) }
    {
        if self.rest.is_empty() {
            Ok(())
        } else {
            Err(Why::BadLine)
        }
    }
}

/// Whether `-` stands behind the blank.
#[inline(always)]
fn is_minus(rest: &[u8]) -> bool
    ensures minus { result ≡ (slice_index rest.now 1 == 45) }
    ensures long { IsTrue result → 1 < length rest.now }
{
    rest.len() > 1 && rest[1] == b'-'
}

/// The number, where it is in the range.
#[inline(always)]
fn narrowed(number: Option<u64>, low: u64, high: u64) -> Option<u64>
    ensures value { result ≡ within low high number }
    ensures in_range { IfSome result (λ n. n ≤ high) }
{
    match number {
        Some(n) if low <= n && n <= high => Some(n),
        _ => None,
    }
}

/// The number, where it is above `last` and in the range; none at 0.
#[inline(always)]
fn item_above(number: Option<u64>, last: u64, high: u64) -> Result<Option<u64>, Why>
    ensures item { result ≡ item_of last high number }
    ensures above { IfOk result (λ o. IfSome o (λ n. last < n)) }
    ensures in_range { IfOk result (λ o. IfSome o (λ n. n ≤ high)) }
{
    match number {
        Some(0) => Ok(None),
        Some(n) if last < n && n <= high => Ok(Some(n)),
        _ => Err(Why::BadNumber),
    }
}

/// The literal of the variable with this number; none at 0, which is not negated.
#[inline(always)]
fn literal_item(number: Option<u64>, negated: bool, vars: u32) -> Result<Option<Lit>, Why>
    requires { vars < 2 ^ 31 }
    ensures { result ≡ literal_item_of negated vars number }
{
    match number {
        Some(0) if !negated => Ok(None),
        Some(n) if 0 < n && n <= u64::from(vars) => {
            let var = n as i32;
            Ok(Some(Lit::new(if negated { -var } else { var })))
        },
        _ => Err(Why::BadNumber),
    }
}
