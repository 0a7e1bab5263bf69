//! Where a worker passes before a job.

/// Is passed by a worker, named by its number, each time it was given a job, before it begins. `turn` is the job's number.
///
/// It promises nothing, so nothing that is proved of workers depends on when they are let through. A test can hold one of
/// them back until another comes.
pub trait Gate: Sync {
    fn pass(&self, worker: u32, turn: u64);
}

/// Lets everybody through at once.
pub struct OpenGate;

impl Gate for OpenGate {
    fn pass(&self, _worker: u32, _turn: u64) {}
}
