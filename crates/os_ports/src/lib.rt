//! The ports of the program over the system: its files, a file as a disk, and the standard streams.
//!
//! ```text
//! let mut files = RealFiles::new(&rt, alloc, names, process::id(rt.process()));
//! let mut out = StreamSink::new(rt.stdout(), "standard output");
//! let disk = RealDisk::new(&rt, alloc, names);
//! // .. a run over these ..
//! files.leave_output();
//! tell_of_fault(alloc, fault_of(status, &files, Some(&disk), &out), &mut err);
//! ```
//!
//! No contract can say what the system holds or answers, so these tell no bytes. What each tells is how many of its calls did not
//! work ([`specs::Counts`]), and for a person why the last of them did not. Start reading at `files`; which file a name leads to,
//! and how it is opened and written, is in `os_files`. `second_line` has what a person reads after the first line of a run.
#![tactic(auto)]

mod disk;
mod files;
mod second_line;
mod sinks;
#[cfg(test)]
mod tests;

pub use disk::RealDisk;
pub use files::RealFiles;
pub use second_line::{fault_of, tell_of_bytes, tell_of_fault, tell_of_words};
pub use sinks::StreamSink;
