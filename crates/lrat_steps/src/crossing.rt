//! That logs and what they share may go to other threads, and be read by several at once.
//!
//! A lack would show only where a crate far above starts a thread. The check of these calls is the proof, here.
use crate::given::{Given, GivenBuilder};
use crate::log::Log;

fn crosses<T: Send + Sync>(_value: &T) {}

pub(crate) fn logs_cross(given: &Given, builder: &GivenBuilder, log: &Log) {
    crosses(given);
    crosses(builder);
    crosses(log);
}
