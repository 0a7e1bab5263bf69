//! The number that a word writes.
//!
//! A word is measured and valued in one loop. Up to 19 digits no `u64` overflows, so they are added up without a look at
//! that; few words are longer, or have a byte that is no digit, and these go on in a loop that looks at each byte. A value
//! that no `u64` holds makes no number; whether the first digit is a zero too many is looked at behind the loops.
ghost use Rattle.std.specs.Prelude.{◌≡◌, ◌+◌, ◌-◌, ◌^◌, ◌≤◌, [], IsTrue, length, slice_index, Some};
ghost use Rattle.std.specs.List.{fold};
ghost use Rattle.evidence_text.specs.Reading.{number_in};
ghost use Rattle.evidence_text.specs.Scan.{IsDigit, digit_onto, form_of, word_from};

/// So many digits no `u64` overflows.
const SHORT: usize = 19;

/// Where a word ends, and the number that it writes.
#[derive(Clone, Copy, Debug)]
pub(crate) struct Scanned {
    pub(crate) end: usize,
    pub(crate) number: Option<u64>,
}

/// The number that is written from a place on, up to a blank or the end of the line.
#[inline(always)]
pub(crate) fn scan(line: &[u8], from: usize) -> Scanned
    requires { from ≤ length line.now }
    ensures end { result.end ≡ from + length (word_from line.now from) }
    ensures within { result.end ≤ length line.now }
    ensures number { result.number ≡ number_in 0 (2 ^ 64 - 1) (word_from line.now from) }
{
    let (end, value) = digits(line, from);
    let number = if is_form(line, from, end) {
        value
    } else {
        None
    };
    Scanned { end, number }
}

/// Where the word ends, and the value of its digits, zeros before others or not.
#[inline(always)]
fn digits(line: &[u8], from: usize) -> (usize, Option<u64>)
    requires { from ≤ length line.now }
    ensures end { result.0 ≡ from + length (word_from line.now from) }
    ensures within { result.0 ≤ length line.now }
    ensures value { result.1 ≡ fold digit_onto (Some 0) (word_from line.now from) }
{
    let (at, value) = short_run(line, from);
    if is_end(line, at) {
        return (at, Some(value));
    }
    rest_of_word(line, at, Some(value))
}

/// The value of the first digits, and where they end: at most 19.
#[inline(always)]
fn short_run(line: &[u8], from: usize) -> (usize, u64)
    requires { from ≤ length line.now }
    ensures within { result.0 ≤ length line.now }
    ensures place { result.0 + length (word_from line.now result.0) ≡ from + length (word_from line.now from) }
    ensures value { fold digit_onto (Some result.1) (word_from line.now result.0) ≡ fold digit_onto (Some 0) (word_from line.now from) }
{
    let most = line.len().min(from + SHORT);
    let mut value = 0;
    for at in from..most {
        let digit = digit_of(line[at]);
        if digit > 9 {
            return (at, value);
        }
        value = value * 10 + u64::from(digit);
    }
    (most, value)
}

/// The digit that a byte writes; a number above 9 where it writes none.
#[inline(always)]
fn digit_of(byte: u8) -> u8
    ensures { result ≤ 9 → IsDigit byte result }
{
    byte.wrapping_sub(b'0')
}

/// Whether no byte of a word stands there.
#[inline(always)]
fn is_end(line: &[u8], at: usize) -> bool
    requires { at ≤ length line.now }
    ensures { IsTrue result → word_from line.now at ≡ [] }
{
    at == line.len() || line[at] == b' '
}

/// Where the word ends whose bytes from a place on are left, and the value with their digits behind it.
fn rest_of_word(line: &[u8], from: usize, before: Option<u64>) -> (usize, Option<u64>)
    requires { from ≤ length line.now }
    ensures end { result.0 ≡ from + length (word_from line.now from) }
    ensures within { result.0 ≤ length line.now }
    ensures value { result.1 ≡ fold digit_onto before (word_from line.now from) }
{
    let mut value = before;
    for at in from..line.len() {
        let byte = line[at];
        if byte == b' ' {
            return (at, value);
        }
        value = with_digit(value, byte);
    }
    (line.len(), value)
}

/// Whether there is a byte, and no zero before others.
#[inline(always)]
fn is_form(line: &[u8], from: usize, end: usize) -> bool
    requires ordered { from ≤ end }
    requires within { end ≤ length line.now }
    ensures { result ≡ form_of (end - from) (slice_index line.now from) }
{
    end > from && (line[from] != b'0' || end == from + 1)
}

/// The value with one digit more, or none where it is none or no `u64`, or the byte no digit.
fn with_digit(value: Option<u64>, byte: u8) -> Option<u64>
    ensures { result ≡ digit_onto value byte }
{
    let digit = byte.wrapping_sub(b'0');
    if digit > 9 {
        return None;
    }
    value?.checked_mul(10)?.checked_add(u64::from(digit))
}
