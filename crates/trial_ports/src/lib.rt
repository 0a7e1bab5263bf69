//! Ports of trials: a disk that has what it holds under names, and a gate at which two workers meet.
//!
//! ```text
//! let disk = NamedDisk::holding(alloc, "j", bytes, 9)?;   // its calls from the ninth one on fail
//! let left = disk.left("j", Crash::Torn(0))?;             // what a crash makes of it
//! let gate = Meeting::new(true);                          // holds the first job until another worker comes
//! ```
//!
//! Start reading at `named.rt`. They tell nothing, so little is proved of them.
#![tactic(auto)]

mod gate;
mod named;

pub use gate::Meeting;
pub use named::{Crash, NamedDisk};
