//! Runs on a disk that has what it holds under names, and what a crash leaves of it.
use crate::left::Left;
use crate::lines::push_lines;
use crate::machine::Machine;
use crate::outside::Outside;
use crate::setting::Setting;
use crate::sweep::{MANY, Stretch};
use gm_ports::Disk;
use std::alloc::{AllocError, Global};
use trial_ports::{Crash, NamedDisk};

/// Adds the status, and what standard error got.
fn tell_end(alloc: Global, left: &Left, out: &mut String) -> Result<(), AllocError> {
    left.answer.print(alloc, out)?;
    push_lines(out, "err", left.err.as_slice())
}

/// Adds under which names the disk was opened.
fn tell_opened(
    alloc: Global,
    named: &Option<NamedDisk>,
    out: &mut String,
) -> Result<(), AllocError> {
    let Some(disk) = named else {
        return out.push_str("no disk\n");
    };
    for opened in disk.opened() {
        let line = format!(in alloc; "opened {opened}\n")?;
        out.push_str(line.as_str())?;
    }
    Ok(())
}

/// Runs the words on a disk that has its bytes under this name, and adds how it ended and under which names it was opened.
pub fn run_by_name(
    machine: &Machine,
    alloc: Global,
    name: &str,
    words: &[&str],
    setting: &Setting,
    out: &mut String,
) -> Result<(), AllocError> {
    let mut files = Outside::new(alloc, setting)?;
    run_on_named(
        machine,
        alloc,
        name,
        words,
        setting,
        u64::MAX,
        &mut files,
        out,
    )?;
    tell_opened(alloc, &files.named, out)
}

/// Runs the words on such a disk, whose calls fail from this one on, and adds how it ended.
fn run_on_named(
    machine: &Machine,
    alloc: Global,
    name: &str,
    words: &[&str],
    setting: &Setting,
    call: u64,
    files: &mut Outside,
    out: &mut String,
) -> Result<(), AllocError> {
    files.hold_by_name(alloc, name, setting.bytes.as_slice(), call)?;
    let left = machine.run(alloc, words, setting, files)?;
    tell_end(alloc, &left, out)
}

/// Runs the words on what a crash left, and adds how it went.
fn run_behind(
    machine: &Machine,
    alloc: Global,
    words: &[&str],
    setting: &Setting,
    left: &[u8],
    out: &mut String,
) -> Result<(), AllocError> {
    let mut files = Outside::new(alloc, setting)?;
    files.hold_on_disk(alloc, left)?;
    let again = machine.run(alloc, words, setting, &mut files)?;
    out.push_str("then ")?;
    again.print(alloc, true, out)
}

/// Plays each crash of the disk, and runs the words on what it left. Answers whether a call of the disk failed before.
fn run_behind_each(
    machine: &Machine,
    alloc: Global,
    name: &str,
    words: &[&str],
    setting: &Setting,
    disk: &NamedDisk,
    out: &mut String,
) -> Result<bool, AllocError> {
    for crash in [
        Crash::Lost,
        Crash::Kept,
        Crash::Torn(0),
        Crash::Torn(1),
        Crash::Torn(255),
    ] {
        let left = disk.left(name, crash)?;
        run_behind(machine, alloc, words, setting, left.as_slice(), out)?;
    }
    Ok(disk.faults() > 0)
}

/// Runs the words while the disk's calls fail from this one on, and then on what each crash leaves of it, and adds how all
/// went. Answers whether a call failed.
fn run_crashed(
    machine: &Machine,
    alloc: Global,
    name: &str,
    words: &[&str],
    setting: &Setting,
    call: u64,
    out: &mut String,
) -> Result<bool, AllocError> {
    let mut files = Outside::new(alloc, setting)?;
    run_on_named(machine, alloc, name, words, setting, call, &mut files, out)?;
    match &files.named {
        Some(disk) => run_behind_each(machine, alloc, name, words, setting, disk, out),
        None => Ok(false),
    }
}

/// The same, counted with the runs before that went alike.
fn add_crashed(
    machine: &Machine,
    alloc: Global,
    name: &str,
    words: &[&str],
    setting: &Setting,
    call: u64,
    stretch: &mut Stretch,
    out: &mut String,
) -> Result<bool, AllocError> {
    let mut text = String::new(alloc);
    let failed = run_crashed(machine, alloc, name, words, setting, call, &mut text)?;
    stretch.add(alloc, text, out)?;
    Ok(failed)
}

/// Runs the words with all of the disk's calls failing from the first on, from the second on and so on, plays each crash
/// behind it, and runs them once more on what that left; and adds how all went.
pub fn crash_each(
    machine: &Machine,
    alloc: Global,
    name: &str,
    words: &[&str],
    setting: &Setting,
    out: &mut String,
) -> Result<(), AllocError> {
    let mut stretch = Stretch::new(alloc);
    for call in 1..MANY {
        if !add_crashed(
            machine,
            alloc,
            name,
            words,
            setting,
            call,
            &mut stretch,
            out,
        )? {
            return stretch.print(alloc, out);
        }
    }
    out.push_str("no run in which no call fails\n")
}
