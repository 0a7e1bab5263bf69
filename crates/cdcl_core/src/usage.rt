//! How much clauses are used.
//!
//! A conflict raises the clauses from which its own is learnt, and the learnt one. What a raise adds grows by a thousandth with
//! each conflict, so that the later ones count more (Eén and Sörensson 2003); before a number would pass the greatest `u64`
//! all are halved, 32 times in one walk. Where there is no memory for it, a clause counts as one that is never used.
//!
//! Nothing rests on the numbers: they only say which clauses are forgotten first.
use std::alloc::{AllocError, Global};

// By how many bits all are shifted, before one would pass the greatest number.
const HALVINGS: u32 = 32;

// What a raise adds at first.
const FIRST_INCREMENT: u64 = 1 << 20;

/// How much each clause was used.
#[derive(Drop)]
pub struct Usage {
    // By id, up to the greatest one that was raised.
    activities: Vec<u64>,
    increment: u64,
}

impl Usage {
    /// No clause was used. It takes no memory.
    pub fn new(alloc: Global) -> Usage {
        Usage {
            activities: Vec::new(alloc),
            increment: FIRST_INCREMENT,
        }
    }

    /// How much the clause of this id was used.
    pub fn of(&self, id: u64) -> u64 {
        self.activities.get(id as usize).copied().unwrap_or(0)
    }

    /// Raises the clauses of these ids, and that of `learnt`, which was learnt from them. Later raises count more.
    pub fn raise_all(&mut self, ids: &[u64], learnt: u64) {
        for id in ids {
            self.raise(*id);
        }
        self.raise(learnt);
        self.increment = self.increment.saturating_add(self.increment / 1000 + 1);
    }

    fn raise(&mut self, id: u64) {
        let at = id as usize;
        if reach(&mut self.activities, at).is_err() {
            return;
        }
        if self.of(id) > u64::MAX - self.increment {
            self.halve();
        }
        let raised = self.of(id).saturating_add(self.increment);
        if at < self.activities.len() {
            self.activities[at] = raised;
        }
    }

    // Halves all.
    fn halve(&mut self) {
        for activity in self.activities.iter_mut() {
            *activity >>= HALVINGS;
        }
        self.increment = (self.increment >> HALVINGS).max(1);
    }
}

// Has a number at this place. Those that come are 0.
fn reach(activities: &mut Vec<u64>, at: usize) -> Result<(), AllocError> {
    for _ in activities.len()..at.saturating_add(1) {
        activities.push(0)?;
    }
    Ok(())
}
