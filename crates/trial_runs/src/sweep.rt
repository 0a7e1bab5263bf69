//! Each call of a kind fails in turn.
//!
//! The first run in which no call fails is the last one. Runs next to each other that went alike are told once, with their
//! number, up to ten; how many writes a text takes is its own matter.
use crate::left::Left;
use crate::lines::push_lines;
use crate::machine::Machine;
use crate::outside::Outside;
use crate::setting::{Kind, Setting};
use std::alloc::{AllocError, Global};

/// More calls than any run makes.
pub(crate) const MANY: u64 = 10_000;

/// Runs that went alike, one behind the other.
#[derive(Drop)]
pub(crate) struct Stretch {
    count: u64,
    text: String,
}

impl Stretch {
    pub(crate) fn new(alloc: Global) -> Stretch {
        Stretch {
            count: 0,
            text: String::new(alloc),
        }
    }

    pub(crate) fn print(&self, alloc: Global, out: &mut String) -> Result<(), AllocError> {
        let line = match self.count {
            0 => return Ok(()),
            1 => String::from_str(alloc, "1 run\n")?,
            2..10 => format!(in alloc; "{} runs\n", self.count)?,
            _ => String::from_str(alloc, "10 runs or more\n")?,
        };
        out.push_str(line.as_str())?;
        out.push_str(self.text.as_str())
    }

    /// Counts one more run that went like this; what went otherwise is told first.
    pub(crate) fn add(
        &mut self,
        alloc: Global,
        text: String,
        out: &mut String,
    ) -> Result<(), AllocError> {
        if self.text.as_str() == text.as_str() {
            self.count = self.count.saturating_add(1);
            return Ok(());
        }
        self.print(alloc, out)?;
        self.count = 1;
        self.text = text;
        Ok(())
    }
}

/// Whether the two runs answered and wrote the same, and standard error got nothing in the second one.
fn is_same_unheard(heard: &Left, unheard: &Left) -> bool {
    heard.answer.status == unheard.answer.status
        && heard.out.as_slice() == unheard.out.as_slice()
        && unheard.err.is_empty()
        && heard.faults.reads == unheard.faults.reads
        && heard.faults.writes == unheard.faults.writes
        && heard.faults.disk == unheard.faults.disk
        && heard.faults.report == unheard.faults.report
}

/// Runs the words, and once more while standard error takes nothing; adds how it went. Answers whether a call failed.
fn run_both(
    machine: &Machine,
    alloc: Global,
    words: &[&str],
    setting: &mut Setting,
    text: &mut String,
) -> Result<bool, AllocError> {
    setting.fail(Kind::Errors, Vec::new(alloc));
    let heard = machine.run_anew(alloc, words, setting)?;
    heard.print(alloc, true, text)?;
    setting.fail(Kind::Errors, Vec::from_slice(alloc, &[1])?);
    let unheard = machine.run_anew(alloc, words, setting)?;
    if !is_same_unheard(&heard, &unheard) {
        text.push_str("and otherwise while standard error takes nothing:\n")?;
        unheard.print(alloc, true, text)?;
    }
    let faults = heard.faults;
    Ok(faults.reads > 0 || faults.writes > 0 || faults.disk > 0 || faults.report > 0)
}

/// The same, counted with the runs before that went alike.
fn add_both(
    machine: &Machine,
    alloc: Global,
    words: &[&str],
    setting: &mut Setting,
    stretch: &mut Stretch,
    out: &mut String,
) -> Result<bool, AllocError> {
    let mut text = String::new(alloc);
    let failed = run_both(machine, alloc, words, setting, &mut text)?;
    stretch.add(alloc, text, out)?;
    Ok(failed)
}

/// Runs the words with each call of the kind failing in turn, each time twice, and adds how it went.
pub fn sweep(
    machine: &Machine,
    alloc: Global,
    words: &[&str],
    kind: Kind,
    setting: &mut Setting,
    out: &mut String,
) -> Result<(), AllocError> {
    let mut stretch = Stretch::new(alloc);
    for call in 1..MANY {
        setting.fail(kind, Vec::from_slice(alloc, &[call])?);
        if !add_both(machine, alloc, words, setting, &mut stretch, out)? {
            return stretch.print(alloc, out);
        }
    }
    out.push_str("no run in which no call fails\n")
}

/// The calls from this one on.
fn calls_from(alloc: Global, call: u64) -> Result<Vec<u64>, AllocError> {
    let mut calls = Vec::new(alloc);
    for number in call..call.saturating_add(200) {
        calls.push(number)?;
    }
    Ok(calls)
}

/// Runs the words while the disk's calls fail from this one on, and then on what was left, and adds how both went. Answers
/// whether a call failed.
fn run_stopped(
    machine: &Machine,
    alloc: Global,
    words: &[&str],
    setting: &Setting,
    call: u64,
    text: &mut String,
) -> Result<bool, AllocError> {
    let mut files = Outside::new(alloc, setting)?;
    stop_and_go_on(machine, alloc, words, setting, call, &mut files, text)
}

fn stop_and_go_on(
    machine: &Machine,
    alloc: Global,
    words: &[&str],
    setting: &Setting,
    call: u64,
    files: &mut Outside,
    text: &mut String,
) -> Result<bool, AllocError> {
    let failed = stop_at(machine, alloc, words, setting, call, files, text)?;
    go_on(machine, alloc, words, setting, files, text)?;
    Ok(failed)
}

/// Runs the words while the disk's calls fail from this one on, and adds how it went.
fn stop_at(
    machine: &Machine,
    alloc: Global,
    words: &[&str],
    setting: &Setting,
    call: u64,
    files: &mut Outside,
    text: &mut String,
) -> Result<bool, AllocError> {
    let failing = calls_from(alloc, call)?;
    files.renew_disk(alloc, failing.as_slice())?;
    let stopped = machine.run(alloc, words, setting, files)?;
    stopped.answer.print(alloc, text)?;
    push_lines(text, "err", stopped.err.as_slice())?;
    Ok(stopped.faults.disk > 0)
}

/// Runs the words on what was left, with no call failing, and adds how it went.
fn go_on(
    machine: &Machine,
    alloc: Global,
    words: &[&str],
    setting: &Setting,
    files: &mut Outside,
    text: &mut String,
) -> Result<(), AllocError> {
    files.renew_disk(alloc, &[])?;
    let again = machine.run(alloc, words, setting, files)?;
    text.push_str("then ")?;
    again.print(alloc, true, text)
}

/// Runs the words while the disk's calls fail from this one on and then on what was left, counted with the runs before that went
/// alike. Answers whether a call failed.
fn add_stopped(
    machine: &Machine,
    alloc: Global,
    words: &[&str],
    setting: &Setting,
    call: u64,
    stretch: &mut Stretch,
    out: &mut String,
) -> Result<bool, AllocError> {
    let mut text = String::new(alloc);
    let failed = run_stopped(machine, alloc, words, setting, call, &mut text)?;
    stretch.add(alloc, text, out)?;
    Ok(failed)
}

/// Runs the words with all of the disk's calls failing from the first on, from the second on and so on, and each time once more
/// on what was left, and adds how it went.
pub fn stop_each(
    machine: &Machine,
    alloc: Global,
    words: &[&str],
    setting: &Setting,
    out: &mut String,
) -> Result<(), AllocError> {
    let mut stretch = Stretch::new(alloc);
    for call in 1..MANY {
        if !add_stopped(machine, alloc, words, setting, call, &mut stretch, out)? {
            return stretch.print(alloc, out);
        }
    }
    out.push_str("no run in which no call fails\n")
}
