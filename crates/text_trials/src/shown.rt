//! How answers are shown.
use std::alloc::AllocError;
use trial_script::show;

/// Adds a line with a text in quotes.
pub fn show_text(text: &[u8], out: &mut String) -> Result<bool, AllocError> {
    push_text(text, out)?;
    show("", out)
}

/// Adds a text in quotes.
pub fn push_text(text: &[u8], out: &mut String) -> Result<(), AllocError> {
    out.push_str("\"")?;
    for byte in text {
        push_byte(*byte, out)?;
    }
    out.push_str("\"")
}

/// Adds the lines of a text, each as in a script.
pub fn show_lines(text: &[u8], out: &mut String) -> Result<bool, AllocError> {
    let mut is_open = false;
    for byte in text {
        if !is_open {
            out.push_str(if *byte == b'\n' { "|" } else { "| " })?;
        }
        is_open = *byte != b'\n';
        if is_open {
            push_byte(*byte, out)?;
        } else {
            out.push_str("\n")?;
        }
    }
    if is_open {
        out.push_str(" and no end\n")?;
    }
    Ok(true)
}

/// Adds a byte, as in a script where it is no printable ASCII; the end of a line is `\n`.
fn push_byte(byte: u8, out: &mut String) -> Result<(), AllocError> {
    match byte {
        b'\n' => out.push_str("\\n"),
        b'\r' => out.push_str("\\r"),
        b'\t' => out.push_str("\\t"),
        b'\\' => out.push_str("\\\\"),
        b' '..=b'~' => {
            out.push(char::from(byte))?;
            Ok(())
        }
        _ => write!(out, "\\x{byte:02x}"),
    }
}
