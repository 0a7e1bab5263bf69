//! Texts by lines.
use std::alloc::AllocError;
use std::str;

/// The first line, with its end if it has one, and what is behind it; nothing where there is no byte.
pub fn first_line(text: &[u8]) -> Option<(&[u8], &[u8])> {
    if text.is_empty() {
        return None;
    }
    match text.iter().position(|byte| *byte == b'\n') {
        Some(at) => Some(text.split_at(at + 1)),
        None => Some((text, &[])),
    }
}

/// Adds each line behind this word and a blank; a last line that has no end stands behind the word and a dot.
pub fn push_lines(out: &mut String, word: &str, text: &[u8]) -> Result<(), AllocError> {
    let mut rest = text;
    for _ in 0..text.len() {
        let Some((line, behind)) = first_line(rest) else {
            break;
        };
        push_line(out, word, line)?;
        rest = behind;
    }
    Ok(())
}

fn push_line(out: &mut String, word: &str, line: &[u8]) -> Result<(), AllocError> {
    out.push_str(word)?;
    let shown = match line.strip_suffix(b"\n") {
        Some(shown) => shown,
        None => {
            out.push_str(".")?;
            line
        }
    };
    if !shown.is_empty() {
        out.push_str(" ")?;
    }
    out.push_str(str::from_utf8(shown).unwrap_or("(no UTF-8)"))?;
    out.push_str("\n")
}
