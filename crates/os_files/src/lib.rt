//! The files of the system that a command line names: which of them are one, and how they are opened and written.
//!
//! ```text
//! let names = Names::of(&request);              // what each file is there for
//! no_clash(rt, alloc, &names)?;                 // none that is written is another one
//! let maker = Maker { rt, alloc, process };
//! let mut output = maker.open(name)?;           // stands beside the file of its name
//! let count = output.write(piece)?;
//! output.finish(rt)?;                           // takes the name, synced
//! ```
//!
//! Start reading at `names`, go on with `leads`, which says what a name leads to, and then with `clash` and `output`.
//! `journal_file` opens a journal for one run at a time, and a `Fault` says for a person which call did not work.
//!
//! No contract can say what the system holds or answers. So what is proved here is that each call ends, is safe, and tells of a
//! write no more bytes than it was handed; which files are one, and what stands under a name, is tried from outside. The ports of
//! the program over these calls are in `gmus`.
#![tactic(auto)]

mod clash;
mod fault;
mod journal_file;
mod leads;
mod names;
mod output;

pub use clash::no_clash;
pub use fault::{Fault, nothing_opened, nothing_taken};
pub use journal_file::open_journal;
pub use names::Names;
pub use output::{Maker, Output};
