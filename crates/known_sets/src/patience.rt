//! How long an attempt that fails is left alone.
//!
//! An attempt that has failed many times more than it succeeded will mostly fail again. From then on it is made only every so
//! often: each failure more doubles the number of chances that are passed by, and the first success ends that. A success
//! takes one failure back and not all, so that where few attempts succeed the next failure has chances passed by again.

// How many failures more than successes cost no chance.
const FAILURES: u32 = 16;

/// How many failures there were more than successes, and which chances are passed by.
#[derive(Drop)]
pub struct Patience {
    // At most `FAILURES`.
    failures: u32,
    // How many chances go by behind the last failure, and how many of these are left.
    pause: u64,
    left: u64,
}

impl Patience {
    /// Nothing has failed.
    pub fn new() -> Patience {
        Patience {
            failures: 0,
            pause: 0,
            left: 0,
        }
    }

    /// Whether this chance is to be taken.
    pub fn is_due(&mut self) -> bool {
        if self.left == 0 {
            return true;
        }
        self.left -= 1;
        false
    }

    /// Hears how an attempt ended.
    pub fn hear(&mut self, succeeded: bool) {
        if succeeded {
            self.failures = self.failures.saturating_sub(1);
            self.pause = 0;
        } else if self.failures < FAILURES {
            self.failures += 1;
        } else {
            self.pause = self.pause.saturating_mul(2).max(1);
        }
        self.left = self.pause;
    }
}
