//! What a run left.
use crate::lines::push_lines;
use std::alloc::{AllocError, Global};

/// What a run answered: the status, how many clauses were learnt, and how many sets were recorded, if any could be.
#[derive(Clone, Copy)]
pub struct Answer {
    pub status: u8,
    pub spent: u64,
    pub records: Option<usize>,
}

/// How many calls of each kind failed.
#[derive(Clone, Copy)]
pub struct Faults {
    pub reads: u64,
    pub writes: u64,
    pub disk: u64,
    pub report: u64,
    pub errors: u64,
}

/// What a run left, but for its files: its answer, what its sinks got, and what failed.
#[derive(Drop)]
pub struct Left {
    pub answer: Answer,
    pub out: Vec<u8>,
    pub err: Vec<u8>,
    pub faults: Faults,
    /// Whether two workers met at the gate, where they had to.
    pub met: Option<bool>,
}

impl Left {
    /// Adds the status; what the sinks got, but for the report where it is not to be shown; what failed; and whether two
    /// workers met.
    pub fn print(&self, alloc: Global, shows: bool, out: &mut String) -> Result<(), AllocError> {
        self.answer.print(alloc, out)?;
        if shows {
            push_lines(out, "out", self.out.as_slice())?;
        }
        push_lines(out, "err", self.err.as_slice())?;
        self.faults.print(alloc, out)?;
        match self.met {
            Some(true) => out.push_str("two workers met\n"),
            Some(false) => out.push_str("no two workers met\n"),
            None => Ok(()),
        }
    }
}

impl Answer {
    /// Adds the status.
    pub fn print(self, alloc: Global, out: &mut String) -> Result<(), AllocError> {
        let status = format!(in alloc; "status {}\n", self.status)?;
        out.push_str(status.as_str())
    }
}

impl Faults {
    /// How many of them came behind these.
    pub fn since(self, before: Faults) -> Faults {
        Faults {
            reads: self.reads.saturating_sub(before.reads),
            writes: self.writes.saturating_sub(before.writes),
            disk: self.disk.saturating_sub(before.disk),
            report: self.report.saturating_sub(before.report),
            errors: self.errors.saturating_sub(before.errors),
        }
    }

    fn print(self, alloc: Global, out: &mut String) -> Result<(), AllocError> {
        for (word, count) in [
            ("reads", self.reads),
            ("writes", self.writes),
            ("disk", self.disk),
            ("report", self.report),
            ("errors", self.errors),
        ] {
            if count > 0 {
                let line = format!(in alloc; "faults {word} {count}\n")?;
                out.push_str(line.as_str())?;
            }
        }
        Ok(())
    }
}
