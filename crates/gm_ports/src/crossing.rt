//! That disks may go to other threads.
//!
//! A lack would show only where a crate far above starts a thread. The check of these calls is the proof, here.
use crate::{MemDisk, NoDisk};

fn crosses<T: Send>(_value: &T) {}

pub(crate) fn disks_cross(disk: &MemDisk, none: &NoDisk) {
    crosses(disk);
    crosses(none);
}
