//! A run as a value.
//!
//! A run starts threads, and may do so only where the runtime is at hand, in `main`. A player is handed no runtime, so it
//! holds what `main` makes of it: a closure that runs words.
use crate::left::Left;
use crate::outside::Outside;
use crate::setting::Setting;
use std::alloc::{AllocError, Global};

/// Runs these words over these files, with sinks and a gate as the setting tells.
pub type Run = Box<
    dyn Fn(Global, &[&str], &Setting, &mut Outside) -> Result<Left, AllocError> + Drop,
>;

/// Runs words, wherever it is handed.
#[derive(Drop)]
pub struct Machine {
    run: Run,
    ghost ready: { IsAlwaysCallable run },
}

impl Machine {
    pub fn new(run: Run) -> Self
        requires { IsAlwaysCallable run }
    {
        Machine { run }
    }

    /// Runs these words over these files.
    pub fn run(
        &self,
        alloc: Global,
        words: &[&str],
        setting: &Setting,
        files: &mut Outside,
    ) -> Result<Left, AllocError> {
        (self.run)(alloc, words, setting, files)
    }

    /// Runs these words over the files that the setting tells.
    pub fn run_anew(
        &self,
        alloc: Global,
        words: &[&str],
        setting: &Setting,
    ) -> Result<Left, AllocError> {
        let mut files = Outside::new(alloc, setting)?;
        self.run(alloc, words, setting, &mut files)
    }
}
