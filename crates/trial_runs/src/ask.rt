//! What is asked of the last run and of the files that it left.
use crate::left::Left;
use crate::lines::{first_line, push_lines};
use crate::outside::Outside;
use crate::setting::text_of;
use crate::shelf::Shelf;
use std::alloc::{AllocError, Global};
use trial_script::Step;

/// Adds what the call asks of the files. Answers whether it asks something that they know.
pub fn ask_files(
    alloc: Global,
    files: &Outside,
    shelf: &Shelf,
    step: &Step<'_>,
    out: &mut String,
) -> Result<bool, AllocError> {
    match step.word(0) {
        "held" => match files.held(step.word(1)) {
            Some(text) => push_lines(out, "held", text)?,
            None => out.push_str("no file\n")?,
        },
        "begins" => {
            let Some(front) = text_of(alloc, shelf, step)? else {
                return Ok(false);
            };
            let text = files.held(step.word(1)).unwrap_or(&[]);
            if text.starts_with(front.as_slice()) {
                out.push_str("begins so\n")?;
            } else {
                push_lines(out, "otherwise", text)?;
            }
        }
        "disk" => push_bytes(alloc, files.bytes(), out)?,
        "tells" => match files.tells() {
            Some(true) => out.push_str("all was kept\n")?,
            Some(false) => out.push_str("something was not kept\n")?,
            None => return Ok(false),
        },
        _ => return Ok(false),
    }
    Ok(true)
}

fn push_bytes(alloc: Global, bytes: &[u8], out: &mut String) -> Result<(), AllocError> {
    out.push_str("disk")?;
    for byte in bytes {
        let word = format!(in alloc; " {byte}")?;
        out.push_str(word.as_str())?;
    }
    out.push_str("\n")
}

/// Adds what the call asks of a run. Answers whether it asks something that is known.
pub fn ask_run(
    alloc: Global,
    left: &Left,
    shelf: &Shelf,
    step: &Step<'_>,
    out: &mut String,
) -> Result<bool, AllocError> {
    match step.word(0) {
        "spent" => {
            let line = format!(in alloc; "spent {}\n", left.answer.spent)?;
            out.push_str(line.as_str())?;
        }
        "records" => match left.answer.records {
            Some(count) => {
                let line = format!(in alloc; "records {count}\n")?;
                out.push_str(line.as_str())?;
            }
            None => out.push_str("no enumeration\n")?,
        },
        "last" => push_lines(out, "out", last_line(left.out.as_slice()))?,
        "sets" => {
            let Some(known) = shelf.find(step.word(1)) else {
                return Ok(false);
            };
            push_sets(alloc, left.out.as_slice(), known, out)?;
        }
        _ => return Ok(false),
    }
    Ok(true)
}

fn last_line(text: &[u8]) -> &[u8] {
    let mut last = text;
    let mut rest = text;
    for _ in 0..text.len() {
        let Some((line, behind)) = first_line(rest) else {
            break;
        };
        last = line;
        rest = behind;
    }
    last
}

/// What is left of a report's lines of sets, and how many of each kind were met.
#[derive(Clone, Copy)]
struct Sets<'a> {
    rest: &'a [u8],
    conflicts: u32,
    corrections: u32,
}

impl Sets<'_> {
    /// Passes the line, if it stands next.
    fn pass(&mut self, line: &[u8]) {
        let Some(behind) = self.rest.strip_prefix(line) else {
            return;
        };
        self.rest = behind;
        if line.starts_with(b"u") {
            self.conflicts = self.conflicts.saturating_add(1);
        } else {
            self.corrections = self.corrections.saturating_add(1);
        }
    }
}

/// Adds the two lines that a report begins with, and how many of these lines of sets follow, in their order. Behind them
/// has to stand the line that counts them; else what stands there is added.
fn push_sets(
    alloc: Global,
    report: &[u8],
    known: &[u8],
    out: &mut String,
) -> Result<(), AllocError> {
    let (first, behind) = first_line(report).unwrap_or((&[], &[]));
    let (second, rest) = first_line(behind).unwrap_or((&[], &[]));
    push_lines(out, "out", first)?;
    push_lines(out, "out", second)?;
    let mut sets = Sets {
        rest,
        conflicts: 0,
        corrections: 0,
    };
    let mut lines = known;
    for _ in 0..known.len() {
        let Some((line, others)) = first_line(lines) else {
            break;
        };
        sets.pass(line);
        lines = others;
    }
    let end = format!(in alloc; "e {} {}\n", sets.conflicts, sets.corrections)?;
    if sets.rest != end.as_bytes() {
        return push_lines(out, "otherwise", sets.rest);
    }
    let count = sets.conflicts.saturating_add(sets.corrections);
    let line = format!(in alloc; "{count} of these sets, and their count\n")?;
    out.push_str(line.as_str())
}
