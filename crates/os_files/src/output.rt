//! An output, which gets its name once it is whole.
//!
//! What is written stands beside the file of its name, in the same folder, as `.NAME.gmus-PID`. Once it is whole it is synced, takes
//! the name, and the folder is synced. So under the name is the old text or the new one, and no part of one, whenever the system
//! stops. If the output is not ended, a file that stood there stays; if none stood there, the name gets what was written.
//!
//! In place is written, and emptied first, what can't be had so: what is no regular file, has another name too (a hard link), has an
//! owner or a group that a new file would not have, or stands in a folder in which no file can be made.
ghost use Rattle.std.specs.Prelude.{◌≤◌, IfOk, length};

use crate::leads::{folder_of, free_path, last_of, leads_of, leads_to, real_path, within};
use std::alloc::Global;
use std::fs::{OpenFile, OpenOptions, Permissions};
use std::io::{ErrorKind, Write};
use std::os::unix::fs::{MetadataExt, OpenOptionsExt, PermissionsExt};
use std::{fs, io, rt};

/// A file that is written.
#[derive(Drop)]
pub struct Output<R: rt::Files> {
    file: R::File,
    beside: Option<Beside<R>>,
}

/// What is written beside the file of its name.
#[derive(Drop)]
struct Beside<R: rt::Files> {
    /// The folder of both.
    folder: R::File,
    /// Where it is written.
    made: String,
    /// Where it is to stand.
    to: String,
    /// Whether a file stood there.
    has_stood: bool,
}

/// What makes outputs.
#[derive(Clone, Copy)]
pub struct Maker<'r, R: rt::Files> {
    pub rt: &'r R,
    pub alloc: Global,
    /// The number of this process.
    pub process: u32,
}

impl<'r, R: rt::Files> Maker<'r, R> {
    /// Opens the output of this name. What stands there is opened for writing first, so one without that right is refused.
    pub fn open(&self, name: &str) -> io::Result<Output<R>> {
        match OpenOptions::new().write(true).open(self.rt, name) {
            Ok(file) => self.over(name, file),
            Err(why) if why.kind() == ErrorKind::NotFound => self.fresh(name),
            Err(why) => Err(why),
        }
    }

    /// The output of a name under which something stands, which is opened.
    fn over(&self, name: &str, file: R::File) -> io::Result<Output<R>> {
        let found = file.metadata()?;
        if !found.is_file() {
            return Ok(Output { file, beside: None });
        }
        if let Some(output) = self.instead(name, &found)? {
            return Ok(output);
        }
        file.set_len(0)?;
        Ok(Output { file, beside: None })
    }

    /// An output that takes the place of a regular file, if it can.
    fn instead(&self, name: &str, found: &fs::Metadata) -> io::Result<Option<Output<R>>> {
        if found.nlink() != 1 {
            return Ok(None);
        }
        let Some(path) = real_path(self.rt, self.alloc, name)? else {
            return Ok(None);
        };
        let to = path.into_string();
        let leads = leads_of(self.rt, self.alloc, to.as_str())?;
        if !leads.is_one_with(&leads_to(found)) {
            return Ok(None);
        }
        let mode = found.mode() & 0o7777;
        let Some(output) = self.beside(to, mode & 0o777, true)? else {
            return Ok(None);
        };
        if is_like(&output.file, found) {
            return Ok(Some(output));
        }
        output.remove(self.rt);
        Ok(None)
    }

    /// The output of a name under which nothing stands.
    fn fresh(&self, name: &str) -> io::Result<Output<R>> {
        if let Some(to) = free_path(self.rt, self.alloc, name)? {
            if let Some(output) = self.beside(to, 0o666, false)? {
                return Ok(output);
            }
        }
        let file = fs::create(self.rt, name)?;
        Ok(Output { file, beside: None })
    }

    /// A new file beside the one of this path, if the folder takes one. It is tried once.
    fn beside(&self, to: String, mode: u32, has_stood: bool) -> io::Result<Option<Output<R>>> {
        let Ok(folder) = fs::open(self.rt, folder_of(to.as_str())) else {
            return Ok(None);
        };
        let (last, process) = (last_of(to.as_str()), self.process);
        let last = format!(in self.alloc; ".{last}.gmus-{process}")?;
        let made = within(self.alloc, folder_of(to.as_str()), last.as_str())?;
        let file = OpenOptions::new()
            .write(true)
            .create_new(true)
            .mode(mode)
            .open(self.rt, made.as_str());
        match file {
            Ok(file) => Ok(Some(Output {
                file,
                beside: Some(Beside {
                    folder,
                    made,
                    to,
                    has_stood,
                }),
            })),
            Err(why) if is_of_folder(why.kind()) => Ok(None),
            Err(why) => Err(why),
        }
    }
}

/// Whether a file can't be made because of its folder or its name, and not for want of room.
fn is_of_folder(kind: ErrorKind) -> bool {
    matches!(
        kind,
        ErrorKind::PermissionDenied
            | ErrorKind::ReadOnlyFilesystem
            | ErrorKind::AlreadyExists
            | ErrorKind::InvalidFilename
            | ErrorKind::NotFound
    )
}

/// Whether a new file has the owner and the group of what is there, and takes its mode.
fn is_like<F: OpenFile>(file: &F, found: &fs::Metadata) -> bool {
    let Ok(made) = file.metadata() else {
        return false;
    };
    let mode = found.mode() & 0o7777;
    made.uid() == found.uid()
        && made.gid() == found.gid()
        && (made.mode() & 0o7777 == mode
            || file.set_permissions(Permissions::from_mode(mode)).is_ok())
}

impl<R: rt::Files> Output<R> {
    /// Writes a front part of the piece, and answers how many bytes it took.
    pub fn write(&mut self, piece: &[u8]) -> io::Result<usize>
        ensures bound { IfOk result (λ n. n ≤ length piece.now) }
    {
        self.file.write(piece)
    }

    /// Ends the output: what was written beside is synced, takes its name, and the folder is synced. Of one in place it is not
    /// seen that the system could not close it.
    pub fn finish(self, rt: &R) -> io::Result<()> {
        let Output { file, beside } = self;
        match beside {
            Some(beside) => beside.settle(rt, file.sync_all()),
            None => Ok(()),
        }
    }

    /// Leaves the output as it is, since the run ends earlier.
    pub fn leave(self, rt: &R) {
        let Output {
            file: _file,
            beside,
        } = self;
        if let Some(beside) = beside {
            beside.leave(rt);
        }
    }

    /// Takes away what was made beside.
    fn remove(self, rt: &R) {
        let Output {
            file: _file,
            beside,
        } = self;
        if let Some(beside) = beside {
            let _ = fs::remove_file(rt, beside.made.as_str());
        }
    }
}

impl<R: rt::Files> Beside<R> {
    /// Gives what is synced its name. If it is not, or can't have it, the output is left as it is.
    fn settle(self, rt: &R, synced: io::Result<()>) -> io::Result<()> {
        let renamed = match synced {
            Ok(()) => fs::rename(rt, self.made.as_str(), self.to.as_str()),
            Err(why) => Err(why),
        };
        match renamed {
            Ok(()) => sync_folder(&self.folder),
            Err(why) => {
                self.leave(rt);
                Err(why)
            }
        }
    }

    /// A file that stood there stays, and what was written goes; if none stood there, the name gets it. If that does not work,
    /// nothing can be done.
    fn leave(self, rt: &R) {
        let _ = if self.has_stood {
            fs::remove_file(rt, self.made.as_str())
        } else {
            fs::rename(rt, self.made.as_str(), self.to.as_str())
        };
    }
}

/// Syncs a folder. Where a file system has no such call for folders, it has nothing that could be lost by it.
pub fn sync_folder<F: OpenFile>(folder: &F) -> io::Result<()> {
    match folder.sync_all() {
        Err(why) if matches!(why.kind(), ErrorKind::InvalidInput | ErrorKind::Unsupported) => {
            Ok(())
        }
        synced => synced,
    }
}
