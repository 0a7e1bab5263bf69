//! The file of a journal, which one run has open at a time.
use crate::leads::{folder_of, real_path};
use crate::output::sync_folder;
use std::alloc::Global;
use std::fs::{File, OpenOptions, TryLockError};
use std::io::ErrorKind;
use std::os::unix::fs::FileExt;
use std::{fs, io};

/// Opens the file of this name for reading and writing, makes it if none is there, and locks it until it is closed.
///
/// A file is refused, and stays as it is, if it is no regular one, if another run has it open, or if its first byte begins no
/// journal: that byte is 1, or 0 where the journal has no record. The folder in which it stands is synced each time: whoever
/// made the file may have been stopped before that, and then a crash could take it.
pub fn open_journal(rt: &HostRuntime, alloc: Global, name: &str) -> io::Result<File> {
    look_at(rt, name)?;
    let file = OpenOptions::new()
        .read(true)
        .write(true)
        .create(true)
        .open(rt, name)?;
    lock(&file)?;
    look_into(&file)?;
    let Some(path) = real_path(rt, alloc, name)? else {
        return Err(io::Error::other("its folder is not known"));
    };
    sync_folder(&File::open(rt, folder_of(path.as_path().as_str()))?)?;
    Ok(file)
}

/// Fails if what stands there is no regular file: opening a device may do something. What is wrong with a folder, the system says.
fn look_at(rt: &HostRuntime, name: &str) -> io::Result<()> {
    match fs::metadata(rt, name) {
        Ok(found) if found.is_file() || found.is_dir() => Ok(()),
        Ok(_) => Err(io::Error::other("is no regular file")),
        Err(why) if why.kind() == ErrorKind::NotFound => Ok(()),
        Err(why) => Err(why),
    }
}

fn lock(file: &File) -> io::Result<()> {
    match file.try_lock() {
        Ok(()) => Ok(()),
        Err(TryLockError::WouldBlock) => Err(io::Error::other("another run has it open")),
        Err(TryLockError::Error(why)) => Err(why),
    }
}

/// Fails if the file has bytes of which the first begins no journal. A crash amid the first append may leave such a byte.
fn look_into(file: &File) -> io::Result<()> {
    if !file.metadata()?.is_file() {
        return Err(io::Error::other("is no regular file"));
    }
    let mut first = [0];
    let count = file.read_at(&mut first, 0)?;
    if count == 1 && first[0] > 1 {
        return Err(io::Error::other("is no journal; if a crash left it so, remove it"));
    }
    Ok(())
}
