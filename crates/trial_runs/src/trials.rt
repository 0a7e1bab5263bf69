//! The calls of a script are made.
use crate::ask::{ask_files, ask_run};
use crate::crash::{crash_each, run_by_name};
use crate::left::Left;
use crate::machine::Machine;
use crate::outside::Outside;
use crate::setting::{Setting, kind_of, text_of};
use crate::shelf::Shelf;
use crate::small::list_small;
use crate::sweep::{stop_each, sweep};
use std::alloc::{AllocError, Global};
use trial_script::{Player, Step};

/// What all cases share, what the case at hand says of the world, its files once they are made, and what the last run left.
#[derive(Drop)]
pub struct Trials {
    machine: Machine,
    shelf: Shelf,
    setting: Setting,
    files: Option<Outside>,
    last: Option<Left>,
}

impl Trials {
    pub fn new(machine: Machine, alloc: Global) -> Self {
        Trials {
            machine,
            shelf: Shelf::new(alloc),
            setting: Setting::new(alloc),
            files: None,
            last: None,
        }
    }

    fn add_text(&mut self, alloc: Global, step: &Step<'_>) -> Result<bool, AllocError> {
        let Some(text) = text_of(alloc, &self.shelf, step)? else {
            return Ok(false);
        };
        self.shelf.put(alloc, step.word(1), text)?;
        Ok(true)
    }

    /// Does what a call says of the world, whose files are made anew by the next run.
    fn set(&mut self, alloc: Global, step: &Step<'_>) -> Result<bool, AllocError> {
        self.files = None;
        self.setting.set(alloc, &self.shelf, step)
    }

    fn run(
        &mut self,
        alloc: Global,
        step: &Step<'_>,
        shows: bool,
        out: &mut String,
    ) -> Result<bool, AllocError> {
        self.make_files(alloc)?;
        let Some(files) = &mut self.files else {
            return Ok(false);
        };
        let words = step.words().get(1..).unwrap_or(&[]);
        let left = self.machine.run(alloc, words, &self.setting, files)?;
        self.keep(alloc, left, shows, out)
    }

    /// Makes the files of the case, if they are not there yet.
    fn make_files(&mut self, alloc: Global) -> Result<(), AllocError> {
        if self.files.is_none() {
            let files = Outside::new(alloc, &self.setting)?;
            self.files = Some(files);
        }
        Ok(())
    }

    /// Tells what a run left, and keeps it for what is asked of it.
    fn keep(
        &mut self,
        alloc: Global,
        left: Left,
        shows: bool,
        out: &mut String,
    ) -> Result<bool, AllocError> {
        left.print(alloc, shows, out)?;
        self.last = Some(left);
        Ok(true)
    }

    fn sweep(
        &mut self,
        alloc: Global,
        step: &Step<'_>,
        out: &mut String,
    ) -> Result<bool, AllocError> {
        let Some(kind) = kind_of(step.word(1)) else {
            return Ok(false);
        };
        let words = step.words().get(2..).unwrap_or(&[]);
        sweep(&self.machine, alloc, words, kind, &mut self.setting, out)?;
        Ok(true)
    }

    fn stop(
        &mut self,
        alloc: Global,
        step: &Step<'_>,
        out: &mut String,
    ) -> Result<bool, AllocError> {
        let words = step.words().get(1..).unwrap_or(&[]);
        stop_each(&self.machine, alloc, words, &self.setting, out)?;
        Ok(true)
    }

    fn run_by_name(
        &mut self,
        alloc: Global,
        step: &Step<'_>,
        out: &mut String,
    ) -> Result<bool, AllocError> {
        let words = step.words().get(2..).unwrap_or(&[]);
        run_by_name(
            &self.machine,
            alloc,
            step.word(1),
            words,
            &self.setting,
            out,
        )?;
        Ok(true)
    }

    fn crash(
        &mut self,
        alloc: Global,
        step: &Step<'_>,
        out: &mut String,
    ) -> Result<bool, AllocError> {
        let words = step.words().get(2..).unwrap_or(&[]);
        crash_each(
            &self.machine,
            alloc,
            step.word(1),
            words,
            &self.setting,
            out,
        )?;
        Ok(true)
    }

    fn list_small(
        &mut self,
        alloc: Global,
        step: &Step<'_>,
        with_evidence: bool,
        out: &mut String,
    ) -> Result<bool, AllocError> {
        let (Some(count), Some(from)) = (step.amount(1), step.amount(2)) else {
            return Ok(false);
        };
        let setting = &mut self.setting;
        list_small(
            &self.machine,
            alloc,
            count,
            from,
            with_evidence,
            setting,
            out,
        )?;
        Ok(true)
    }

    /// Adds what the call asks of the last run.
    fn ask(&self, alloc: Global, step: &Step<'_>, out: &mut String) -> Result<bool, AllocError> {
        let (Some(files), Some(last)) = (&self.files, &self.last) else {
            return Ok(false);
        };
        if ask_files(alloc, files, &self.shelf, step, out)? {
            return Ok(true);
        }
        ask_run(alloc, last, &self.shelf, step, out)
    }
}

impl Player for Trials {
    fn begin(&mut self, alloc: Global) -> Result<(), AllocError> {
        self.setting = Setting::new(alloc);
        self.files = None;
        self.last = None;
        Ok(())
    }

    fn call(
        &mut self,
        alloc: Global,
        step: &Step<'_>,
        out: &mut String,
    ) -> Result<bool, AllocError> {
        match step.word(0) {
            "text" => self.add_text(alloc, step),
            "hold" | "change" | "room" | "per" | "fail" | "byte" | "sure" | "meet" => {
                self.set(alloc, step)
            }
            "stop" => self.stop(alloc, step, out),
            "named" => self.run_by_name(alloc, step, out),
            "crash" => self.crash(alloc, step, out),
            "run" => self.run(alloc, step, true, out),
            "quiet" => self.run(alloc, step, false, out),
            "each" => self.sweep(alloc, step, out),
            "small" => self.list_small(alloc, step, false, out),
            "small_evidence" => self.list_small(alloc, step, true, out),
            _ => self.ask(alloc, step, out),
        }
    }
}
