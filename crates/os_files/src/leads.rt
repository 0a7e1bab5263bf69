//! Which file a name leads to.
//!
//! Links are followed. Two names are one file if both lead to one regular file: its device and its inode tell. A name under which
//! no file stands leads to where one would be made: a folder, and the name in it.
ghost use Rattle.std.specs.Prelude.{◌↔◌, IsTrue};
ghost use Rattle.os_files.specs.Leads.{AreOne};

use std::alloc::Global;
use std::io::ErrorKind;
use std::os::unix::fs::MetadataExt;
use std::path::PathBuf;
use std::{fs, io, rt};

/// Where a name leads.
#[derive(Drop)]
pub enum Leads {
    /// To a regular file.
    File {
        device: u64,
        inode: u64,
    },
    /// To no file: one would be made in this folder, under this name.
    Free {
        device: u64,
        inode: u64,
        last: String,
    },
    /// To something that is no regular file, or nobody knows where.
    Elsewhere,
}

impl Leads {
    /// Whether both lead to one regular file, or would.
    pub fn is_one_with(&self, other: &Leads) -> bool
        ensures { IsTrue result ↔ AreOne self.now other.now }
    {
        match (self, other) {
            (
                Leads::File { device, inode },
                Leads::File {
                    device: other_device,
                    inode: other_inode,
                },
            ) => device == other_device && inode == other_inode,
            (
                Leads::Free {
                    device,
                    inode,
                    last,
                },
                Leads::Free {
                    device: other_device,
                    inode: other_inode,
                    last: other_last,
                },
            ) => {
                device == other_device
                    && inode == other_inode
                    && last.as_str() == other_last.as_str()
            }
            _ => false,
        }
    }
}

/// Where a name leads. The only error is want of memory.
pub fn leads_of<R: rt::Files>(rt: &R, alloc: Global, name: &str) -> io::Result<Leads> {
    match fs::metadata(rt, name) {
        Ok(found) => Ok(leads_to(&found)),
        Err(why) if why.kind() == ErrorKind::NotFound => free_leads(rt, alloc, name),
        Err(_) => Ok(Leads::Elsewhere),
    }
}

/// Where something leads that is there.
pub fn leads_to(found: &fs::Metadata) -> Leads {
    if found.is_file() {
        Leads::File {
            device: found.dev(),
            inode: found.ino(),
        }
    } else {
        Leads::Elsewhere
    }
}

fn free_leads<R: rt::Files>(rt: &R, alloc: Global, name: &str) -> io::Result<Leads> {
    let Some(path) = free_path(rt, alloc, name)? else {
        return Ok(Leads::Elsewhere);
    };
    match fs::metadata(rt, folder_of(path.as_str())) {
        Ok(folder) => Ok(Leads::Free {
            device: folder.dev(),
            inode: folder.ino(),
            last: String::from_str(alloc, last_of(path.as_str()))?,
        }),
        Err(_) => Ok(Leads::Elsewhere),
    }
}

/// The path, without links, at which a file of this name would be made, if none is there. None is nobody knows where, as in a
/// folder that is not there, or behind a link to a link. The only error is want of memory.
pub fn free_path<R: rt::Files>(rt: &R, alloc: Global, name: &str) -> io::Result<Option<String>> {
    match known(rt.read_link(alloc, name))? {
        None => made_at(rt, alloc, name),
        Some(link) => {
            let target = beside(alloc, name, link.as_path().as_str())?;
            match fs::symlink_metadata(rt, target.as_str()) {
                Ok(_) => Ok(None),
                Err(_) => made_at(rt, alloc, target.as_str()),
            }
        }
    }
}

/// The text of a link as a name: it begins in the link's folder, unless it is absolute.
fn beside(alloc: Global, name: &str, link: &str) -> io::Result<String> {
    if link.starts_with('/') {
        return Ok(String::from_str(alloc, link)?);
    }
    let folder = folder_of(name);
    Ok(format!(in alloc; "{folder}/{link}")?)
}

/// The path of this name, if its folder is there and its last part can be a file's name.
fn made_at<R: rt::Files>(rt: &R, alloc: Global, name: &str) -> io::Result<Option<String>> {
    let last = last_of(name);
    if last.is_empty() || last == "." || last == ".." {
        return Ok(None);
    }
    match known(rt.canonicalize(alloc, folder_of(name)))? {
        Some(folder) => Ok(Some(within(alloc, folder.as_path().as_str(), last)?)),
        None => Ok(None),
    }
}

/// The path of a name in a folder.
pub fn within(alloc: Global, folder: &str, last: &str) -> io::Result<String> {
    if folder.ends_with('/') {
        Ok(format!(in alloc; "{folder}{last}")?)
    } else {
        Ok(format!(in alloc; "{folder}/{last}")?)
    }
}

/// The path of what is there under this name, without links. None is nobody knows. The only error is want of memory.
pub fn real_path<R: rt::Files>(rt: &R, alloc: Global, name: &str) -> io::Result<Option<PathBuf>> {
    known(rt.canonicalize(alloc, name))
}

/// What was found out, if anything was; want of memory is an error.
fn known(found: io::Result<PathBuf>) -> io::Result<Option<PathBuf>> {
    match found {
        Ok(path) => Ok(Some(path)),
        Err(why) if why.kind() == ErrorKind::OutOfMemory => Err(why),
        Err(_) => Ok(None),
    }
}

/// The name of the folder in which this name stands.
pub fn folder_of(name: &str) -> &str {
    match name.rsplit_once('/') {
        Some((folder, _)) if folder.is_empty() => "/",
        Some((folder, _)) => folder,
        None => ".",
    }
}

/// The last part of a name.
pub fn last_of(name: &str) -> &str {
    match name.rsplit_once('/') {
        Some((_, last)) => last,
        None => name,
    }
}
