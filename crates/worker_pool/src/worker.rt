//! A worker.
use board::Seat;
use gm_ports::Disk;

/// What a worker has for itself: an oracle, a seat at the board, and where there is a journal a seat there.
#[derive(Drop)]
pub struct Worker<O, D: Disk> {
    pub oracle: O,
    pub seat: Seat,
    /// Its seat at the journal, where there is one.
    pub pen: Option<gm_journal::Seat<D>>,
    /// The disk's count of faults, where an append of its failed.
    pub broken: Option<u64>,
}
