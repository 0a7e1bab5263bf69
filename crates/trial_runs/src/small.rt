//! Small problems that a generator makes, against the reports of a plain program.
use crate::lines::push_lines;
use crate::machine::Machine;
use crate::outside::Outside;
use crate::plain::{Small, draw_problem};
use crate::setting::Setting;
use std::alloc::{AllocError, Global};

/// Whether these words end well with this report, and standard error gets nothing.
fn gives(
    machine: &Machine,
    alloc: Global,
    words: &[&str],
    report: &str,
    setting: &Setting,
    files: &mut Outside,
) -> Result<bool, AllocError> {
    let left = machine.run(alloc, words, setting, files)?;
    Ok(left.answer.status == 0 && left.out.as_slice() == report.as_bytes() && left.err.is_empty())
}

/// Whether a listing gives this report; where evidence is asked for, whether a check of it does so too, and the files kept
/// all.
fn is_listed(
    machine: &Machine,
    alloc: Global,
    report: &str,
    with_evidence: bool,
    setting: &Setting,
    files: &mut Outside,
) -> Result<bool, AllocError> {
    if !with_evidence {
        return gives(machine, alloc, &["list", "f"], report, setting, files);
    }
    let words = ["list", "f", "--evidence", "a"];
    let is_listed = gives(machine, alloc, &words, report, setting, files)?;
    let words = ["check", "f", "a"];
    let is_checked = gives(machine, alloc, &words, report, setting, files)?;
    Ok(is_listed && is_checked && files.tells() == Some(true))
}

/// The same, over files of its own.
fn is_listed_anew(
    machine: &Machine,
    alloc: Global,
    report: &str,
    with_evidence: bool,
    setting: &Setting,
) -> Result<bool, AllocError> {
    let mut files = Outside::new(alloc, setting)?;
    is_listed(machine, alloc, report, with_evidence, setting, &mut files)
}

/// Holds a problem under `f`, lists it, and answers whether it had its report; if it had not, it is added.
fn list_one(
    machine: &Machine,
    alloc: Global,
    small: &Small,
    with_evidence: bool,
    setting: &mut Setting,
    out: &mut String,
) -> Result<bool, AllocError> {
    let text = small.text(alloc)?;
    setting.hold_text(alloc, "f", text.as_bytes())?;
    let report = small.report(alloc)?;
    let is_listed = is_listed_anew(machine, alloc, report.as_str(), with_evidence, setting)?;
    if !is_listed {
        push_lines(out, "otherwise", text.as_bytes())?;
    }
    Ok(is_listed)
}

/// Lists so many problems, which are held under `f` one after the other, and adds how many had their reports; before it
/// those that had not.
pub fn list_small(
    machine: &Machine,
    alloc: Global,
    count: u64,
    from: u64,
    with_evidence: bool,
    setting: &mut Setting,
    out: &mut String,
) -> Result<(), AllocError> {
    let mut state = from;
    let mut well: u64 = 0;
    for _ in 0..count {
        let small = draw_problem(alloc, &mut state)?;
        if list_one(machine, alloc, &small, with_evidence, setting, out)? {
            well = well.saturating_add(1);
        }
    }
    let line = format!(in alloc; "{well} of {count} have their reports\n")?;
    out.push_str(line.as_str())
}
