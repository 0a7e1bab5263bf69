//! What a program reads and writes through, as traits, and the same in memory, to try it on.
//!
//! `Files` opens one named file for reading and one for writing; `Sink` takes bytes in order; `Disk` reads and writes one
//! named file at any place, and says what a crash may leave of it. All count their faults, and a call fails only where its
//! count rose, so a caller that answers a fault can show that there was one.
//!
//! ```text
//! match read_whole(alloc, &mut files, "first.gcnf", 134_217_728) {
//!     Reading::Whole(bytes) => ..,   // all that the file holds
//!     Reading::TooLong => ..,        // it holds more
//!     Reading::Failed => ..,         // the count of read faults rose
//!     Reading::Memory => ..,
//! }
//! ```
//!
//! Of those in memory, `MemFiles`, `MemSink` and `MemDisk` fail at the calls that they were told to fail at, and
//! `SureFiles` never. `NoDisk` is for what is run without a disk.
//!
//! Begin with `specs/FilesState.antt`, which says what a `Files` tells of itself, and go on with `files.rt`; for disks with
//! `specs/DiskState.antt` and `disk.rt`.
//!
//! What real files hold is not told, and nothing here says how long a call takes. When written bytes are durable is said of
//! a `Disk` alone, as far as it tells.
#![tactic(auto)]

mod calls;
mod crossing;
mod disk;
mod disk_call;
mod failed;
mod file_list;
mod files;
mod gate;
mod kept_name;
mod mem_disk;
mod mem_file;
mod mem_files;
mod mem_sink;
mod no_disk;
mod rooms;
mod schedule;
mod sink;
mod sure_files;
mod texts;
mod whole;

pub use calls::Calls;
pub use disk::Disk;
pub use failed::Failed;
pub use files::Files;
pub use gate::{Gate, OpenGate};
pub use mem_disk::MemDisk;
pub use mem_files::MemFiles;
pub use mem_sink::MemSink;
pub use no_disk::NoDisk;
pub use rooms::Rooms;
pub use sink::Sink;
pub use sure_files::SureFiles;
pub use texts::Texts;
pub use whole::{Reading, read_whole, write_all};
