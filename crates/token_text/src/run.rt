//! A longest run of bytes that are neither white space nor braces: a word or a number.
//!
//! A run is measured and valued in one loop. A value that is above a tenth of the greatest one goes beyond it with the
//! next digit, and is then told as the greatest, where it stays. So nothing overflows however many digits there are.
ghost use Rattle.std.specs.Prelude.{◌≡◌, ◌+◌, ◌*◌, ◌≤◌, ◌<◌, length, drop, slice_index, true, false, IsTrue, Some, None, if◌then◌else◌};
ghost use Rattle.std.specs.Char.{digit_value, is_ascii_digit};
ghost use Rattle.std.specs.Str.{all_ascii_digits};
ghost use Rattle.token_text.specs.Kinds.{greatest, kind_of, value_of};
ghost use Rattle.token_text.specs.Tokens.{is_plain, is_space, token_bytes};
ghost use Rattle.token_text.specs.Run.{AreToldAlike, first_kind, kind_found, run_at, signed};

use crate::answer::Found;

/// The greatest absolute value that a number is told with.
const GREATEST: u64 = 9_223_372_036_854_775_807;

/// Up to here a value takes one digit more without loss.
const TENTH: u64 = GREATEST / 10;

/// Where a run ends, whether it has digits alone, and then their value.
#[derive(Clone, Copy)]
struct Run {
    end: usize,
    digits: bool,
    value: u64,
}

/// What is found at a place where no white space stands, and where it ends.
pub(crate) fn found_at<'a>(text: &'a [u8], at: usize) -> (Found<'a>, usize)
    requires within { at ≤ length text.now }
    requires stands { at < length text.now → is_space (slice_index text.now at) ≡ false }
    ensures found { kind_found result.0 ≡ first_kind (drop at text.now) }
    ensures end { result.1 ≡ at + length (token_bytes (drop at text.now)) }
{
    if at == text.len() {
        return (Found::End, at);
    }
    match text[at] {
        b'{' => (Found::OpenBrace, at + 1),
        b'}' => (Found::CloseBrace, at + 1),
        _ => word_or_number(text, at),
    }
}

/// The word or the number that begins at a place.
fn word_or_number<'a>(text: &'a [u8], at: usize) -> (Found<'a>, usize)
    requires within { at < length text.now }
    requires plain { is_plain (slice_index text.now at) ≡ true }
    ensures found { kind_found result.0 ≡ Some (kind_of (run_at text.now at)) }
    ensures end { result.1 ≡ at + length (run_at text.now at) }
{
    let negative = text[at] == b'-';
    let run = run_from(text, at + usize::from(negative));
    match number(run, negative) {
        Some(number) => (Found::Number(number), run.end),
        None => (Found::Word(&text[at..run.end]), run.end),
    }
}

/// The number that a run's digits write behind `-` or behind no sign.
fn number(run: Run, negative: bool) -> Option<i64>
    requires { run.value ≤ greatest }
    ensures { result ≡ (if run.digits then signed negative run.value else None) }
{
    if !run.digits || (negative && run.value == 0) {
        return None;
    }
    let value = run.value as i64;
    Some(if negative { -value } else { value })
}

/// The run of plain bytes from a place on.
fn run_from(text: &[u8], start: usize) -> Run
    requires { start ≤ length text.now }
    ensures end { result.end ≡ start + length (run_at text.now start) }
    ensures digits { result.digits ≡ all_ascii_digits (run_at text.now start) }
    ensures value { IsTrue result.digits → result.value ≡ value_of (run_at text.now start) }
    ensures fits { result.value ≤ greatest }
{
    let mut end = text.len();
    let mut digits = true;
    let mut value = 0;
    for at in start..text.len() {
        let byte = text[at];
        if byte.is_ascii_digit() {
            value = with_digit(value, byte);
        } else if is_plain(byte) {
            digits = false;
        } else {
            end = at;
            break;
        }
    }
    Run {
        end,
        digits,
        value: value.min(GREATEST),
    }
}

/// The value with one digit more, or the greatest where that is above it.
fn with_digit(value: u64, digit: u8) -> u64
    requires { IsTrue (is_ascii_digit digit) }
    ensures { AreToldAlike result (value * 10 + digit_value digit) }
{
    if value <= TENTH {
        value * 10 + u64::from(digit - b'0')
    } else {
        GREATEST
    }
}

/// Whether a byte is neither white space nor a brace.
fn is_plain(byte: u8) -> bool
    ensures { result ≡ is_plain byte }
{
    !matches!(byte, b' ' | b'\t' | b'\r' | b'\n' | b'{' | b'}')
}
