//! Reports of sets.
use crate::shown::show_lines;
use gm_base::{GroupSet, Sets};
use report_text::report;
use std::alloc::{AllocError, Global};
use trial_script::Step;

/// The sets of a report, in the order in which they came.
#[derive(Drop)]
pub struct Lists {
    conflicts: Vec<GroupSet>,
    corrections: Vec<GroupSet>,
}

impl Lists {
    pub fn new(alloc: Global) -> Lists {
        Lists {
            conflicts: Vec::new(alloc),
            corrections: Vec::new(alloc),
        }
    }
}

/// Adds the set of the call, or tells the report.
pub fn call_lists(
    lists: &mut Lists,
    alloc: Global,
    step: &Step<'_>,
    out: &mut String,
) -> Result<bool, AllocError> {
    match step.word(0) {
        "conflict" => add_set(&mut lists.conflicts, alloc, step),
        "correction" => add_set(&mut lists.corrections, alloc, step),
        "report" => show_report(lists, alloc, step, out),
        _ => Ok(false),
    }
}

fn add_set(sets: &mut Vec<GroupSet>, alloc: Global, step: &Step<'_>) -> Result<bool, AllocError> {
    let Some(set) = set_of(alloc, step)? else {
        return Ok(false);
    };
    sets.push(set)?;
    Ok(true)
}

/// The set of the groups behind the first word, if each word there is one.
fn set_of(alloc: Global, step: &Step<'_>) -> Result<Option<GroupSet>, AllocError> {
    let mut set = GroupSet::new(alloc);
    for at in 1..step.words().len() {
        let Some(group) = step.positive(at) else {
            return Ok(None);
        };
        set = set.with(alloc, group)?;
    }
    Ok(Some(set))
}

fn show_report(
    lists: &Lists,
    alloc: Global,
    step: &Step<'_>,
    out: &mut String,
) -> Result<bool, AllocError> {
    let Some(groups) = step.count(1) else {
        return Ok(false);
    };
    let complete = step.word(2) == "complete";
    let conflicts = lend(alloc, lists.conflicts.as_slice())?;
    let corrections = lend(alloc, lists.corrections.as_slice())?;
    let text = report(alloc, groups, complete, &conflicts, &corrections)?;
    show_lines(text.as_slice(), out)
}

/// The same sets, lent.
fn lend(alloc: Global, sets: &[GroupSet]) -> Result<Sets<'_>, AllocError> {
    let mut lent = Sets::new(alloc);
    for set in sets {
        lent.push(set)?;
    }
    Ok(lent)
}
