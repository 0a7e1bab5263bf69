//! A journal of texts on a disk, which a crash at any moment leaves whole.
//!
//! From byte 0 stand frames: a gate byte, the text's length in 8 bytes (most significant first), the text, and then the
//! next gate byte. A gate of 1 is open; every other byte is closed and ends the journal, whatever stands behind it.
//!
//! ```text
//! match salvage(alloc, &mut disk, &mut judge) {
//!     Salvaged::Ended(end) => {
//!         start(&mut disk, end)?;                      // nothing is pending then
//!         gate = append(&mut disk, end.gate, &text)?;  // a crash from now on leaves the text
//!     }
//!     Salvaged::Foreign(at) => ..,                     // the disk holds no journal
//! }
//! ```
//!
//! An append writes the frame's body and the next gate, closed, behind the closed gate, syncs, opens that gate, and syncs.
//! While the body is written the journal ends before it whatever a crash leaves of it. While the gate is opened the body
//! is on the disk, so a crash leaves the texts with the new one or without it, and nothing else.
//!
//! Which text may come behind which is said by a `Judge`. Begin with `specs/Frames.antt`, which has the format, go on with
//! `specs/Salvage.antt`, which says what the bytes of a disk give back, and with `appending.rt`.
//!
//! A disk that doesn't tell what it holds may hold anything; of real files nothing is proved but what their adapter says.
#![tactic(auto)]

mod appending;
mod finding;
mod judge;
mod laws;
mod reading;
mod salvaging;
mod starting;
mod text;

pub use appending::append;
pub use judge::Judge;
pub use laws::laws_of_salvage;
pub use salvaging::{End, Salvaged, salvage};
pub use starting::start;
pub use text::FramedText;
