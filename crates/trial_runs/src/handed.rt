//! What a run is handed beside its files.
use crate::left::{Answer, Faults, Left};
use crate::outside::Outside;
use crate::setting::{Moves, Setting};
use gm_ports::{Calls, MemSink};
use std::alloc::{AllocError, Global};
use trial_ports::Meeting;

/// The words, the report's sink and standard error, and the gate.
#[derive(Drop)]
pub struct Handed {
    pub words: Vec<String>,
    pub out: MemSink,
    pub err: MemSink,
    pub gate: Meeting,
}

impl Handed {
    /// These words, with sinks and a gate as the setting tells.
    pub fn new(alloc: Global, words: &[&str], setting: &Setting) -> Result<Handed, AllocError> {
        let words = words_of(alloc, words)?;
        let out = sink_of(alloc, &setting.report)?;
        let err = sink_of(alloc, &setting.errors)?;
        let gate = Meeting::new(setting.meets);
        Ok(Handed {
            words,
            out,
            err,
            gate,
        })
    }

    /// How many calls failed so far.
    pub fn faults(&self, files: &Outside) -> Faults {
        Faults {
            reads: files.files.read_faults(),
            writes: files.files.write_faults(),
            disk: files.disk_faults(),
            report: self.out.faults(),
            errors: self.err.faults(),
        }
    }

    /// What a run left that answered so; `before` are the faults from before it.
    pub fn left(
        &self,
        alloc: Global,
        answer: Answer,
        files: &Outside,
        before: Faults,
    ) -> Result<Left, AllocError> {
        let out = Vec::from_slice(alloc, self.out.got())?;
        let err = Vec::from_slice(alloc, self.err.got())?;
        Ok(Left {
            answer,
            out,
            err,
            faults: self.faults(files).since(before),
            met: self.gate.met(),
        })
    }
}

fn words_of(alloc: Global, given: &[&str]) -> Result<Vec<String>, AllocError> {
    let mut words = Vec::new(alloc);
    for word in given {
        words.push(String::from_str(alloc, word)?)?;
    }
    Ok(words)
}

fn sink_of(alloc: Global, moves: &Moves) -> Result<MemSink, AllocError> {
    let failing = Calls::from_slice(alloc, moves.failing.as_slice())?;
    MemSink::new(alloc, moves.most.max(1), 10_000, failing)
}
