//! The files of a run and the disk of its journal, in memory.
use crate::setting::{Room, Setting};
use crate::shelf::Named;
use gm_ports::{Calls, Disk, MemDisk, MemFiles, Rooms, SureFiles, Texts};
use std::alloc::{AllocError, Global};
use trial_ports::NamedDisk;

/// Files of which calls fail as they were told to, or of which none fails.
#[derive(Drop)]
pub enum Stored {
    Mem(MemFiles),
    Sure(SureFiles),
}

/// The files, and the disk, which a run takes and gives back.
#[derive(Drop)]
pub struct Outside {
    pub files: Stored,
    pub disk: Option<MemDisk>,
    /// A run takes this one in its place, where it is there.
    pub named: Option<NamedDisk>,
}

/// So many calls a disk keeps, and so many bytes its writes take.
const CALL_ROOM: u64 = 1000;

const BYTE_ROOM: u64 = 100_000;

/// A disk of these bytes, of which these calls fail.
fn disk_of(alloc: Global, bytes: &[u8], failing: &[u64]) -> Result<MemDisk, AllocError> {
    let failing = Calls::from_slice(alloc, failing)?;
    MemDisk::new(alloc, bytes, failing, CALL_ROOM, BYTE_ROOM)
}

fn texts_of(alloc: Global, held: &[Named]) -> Result<Texts, AllocError> {
    let mut texts = Texts::new(alloc);
    for named in held {
        texts.push(alloc, named.name.as_str(), named.text.as_slice())?;
    }
    Ok(texts)
}

fn rooms_of(alloc: Global, rooms: &[Room]) -> Result<Rooms, AllocError> {
    let mut all = Rooms::new(alloc);
    for room in rooms {
        all.push(alloc, room.name.as_str(), room.bytes)?;
    }
    Ok(all)
}

impl Outside {
    /// The files and the disk that the setting tells.
    pub fn new(alloc: Global, setting: &Setting) -> Result<Outside, AllocError> {
        let files = Stored::new(alloc, setting)?;
        let failing = setting.disk.failing.as_slice();
        let disk = disk_of(alloc, setting.bytes.as_slice(), failing)?;
        Ok(Outside {
            files,
            disk: Some(disk),
            named: None,
        })
    }

    /// Has a disk of the bytes that are there, of which these calls fail.
    pub fn renew_disk(&mut self, alloc: Global, failing: &[u64]) -> Result<(), AllocError> {
        let disk = disk_of(alloc, self.bytes(), failing)?;
        self.disk = Some(disk);
        Ok(())
    }

    /// Has a disk of these bytes, of which no call fails.
    pub fn hold_on_disk(&mut self, alloc: Global, bytes: &[u8]) -> Result<(), AllocError> {
        let disk = disk_of(alloc, bytes, &[])?;
        self.disk = Some(disk);
        Ok(())
    }

    /// Has a disk in its place that holds these bytes under a name, whose calls fail from this one on.
    pub fn hold_by_name(
        &mut self,
        alloc: Global,
        name: &str,
        bytes: &[u8],
        call: u64,
    ) -> Result<(), AllocError> {
        let disk = NamedDisk::holding(alloc, name, bytes, call)?;
        self.named = Some(disk);
        Ok(())
    }

    /// What is held under a name, where there is such a file.
    pub fn held(&self, name: &str) -> Option<&[u8]> {
        self.files.held(name)
    }

    /// Whether all that was written was kept, where the files tell it.
    pub fn tells(&self) -> Option<bool> {
        self.files.tells()
    }

    /// The bytes of the disk.
    pub fn bytes(&self) -> &[u8] {
        match &self.disk {
            Some(disk) => disk.bytes(),
            None => &[],
        }
    }

    /// How many calls of the disk failed.
    pub fn disk_faults(&self) -> u64 {
        match &self.disk {
            Some(disk) => disk.faults(),
            None => 0,
        }
    }
}

impl Stored {
    /// The files that the setting tells.
    fn new(alloc: Global, setting: &Setting) -> Result<Stored, AllocError> {
        let held = texts_of(alloc, setting.held.all())?;
        let rooms = rooms_of(alloc, setting.rooms.as_slice())?;
        let per_read = setting.reads.most.max(1);
        let per_write = setting.writes.most.max(1);
        if setting.is_sure {
            let files = SureFiles::new(alloc, held, rooms, per_read, per_write)?;
            return Ok(Stored::Sure(files));
        }
        let reads = Calls::from_slice(alloc, setting.reads.failing.as_slice())?;
        let writes = Calls::from_slice(alloc, setting.writes.failing.as_slice())?;
        let files = MemFiles::new(alloc, held, rooms, per_read, per_write, reads, writes)?;
        Ok(Stored::Mem(files))
    }

    /// What is held under a name, where there is such a file.
    pub fn held(&self, name: &str) -> Option<&[u8]> {
        match self {
            Stored::Mem(files) => files.held(name),
            Stored::Sure(files) => Some(files.held(name)),
        }
    }

    pub fn read_faults(&self) -> u64 {
        match self {
            Stored::Mem(files) => files.read_faults(),
            Stored::Sure(_) => 0,
        }
    }

    pub fn write_faults(&self) -> u64 {
        match self {
            Stored::Mem(files) => files.write_faults(),
            Stored::Sure(_) => 0,
        }
    }

    /// Whether all that was written was kept, where the files tell it.
    pub fn tells(&self) -> Option<bool> {
        match self {
            Stored::Mem(_) => None,
            Stored::Sure(files) => Some(files.tells()),
        }
    }
}
