//! That threads may share a journal, and that its seats may go to other threads.
//!
//! A lack would show only where a crate far above starts a thread. The check of these calls is the proof, here.
use crate::{Journal, Seat};
use gm_ports::Disk;

fn crosses<T: Send>(_value: &T) {}

fn is_shared<T: Sync>(_value: &T) {}

pub(crate) fn journals_cross<D: Disk + Send>(journal: &Journal<D>, seat: &Seat<D>) {
    is_shared(journal);
    crosses(seat);
}
