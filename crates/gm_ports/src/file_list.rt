//! All files in memory.
//!
//! A file is found by its name and stays at its place: no file comes or goes once the list is made.
ghost use Rattle.std.specs.Prelude.{◌≡◌, ◌≤◌, ◌<◌, ◌+◌, ◌-◌, ◌++◌, ◌↔◌, [], Some, IfSome, IfOk, OnOk, IsNone, None, length, map, List, ℕ};
ghost use Rattle.gm_ports.specs.MemFiles.{place_of, held_under, room_under, text_at, room_at, holding, file_with, file_without};
ghost use Rattle.gm_ports.specs.Texts.{text_named, room_named};

use crate::mem_file::MemFile;
use crate::{Rooms, Texts};
use std::alloc::{AllocError, Global};
use std::marker::Model;

#[derive(Drop)]
pub(crate) struct FileList {
    files: Vec<MemFile>,
}

impl Model for FileList {
    ghost use Rattle.std.specs.Prelude.{List};
    ghost use Rattle.gm_ports.specs.MemFiles.{MemFileState};

    ghost Value = { List MemFileState };

    ghost view = { λ l. l.files.items };
}

impl FileList {
    /// A file for each text and for each name that may be written. Of one name the text comes first, and has its room.
    pub(crate) fn new(alloc: Global, held: Texts, rooms: Rooms) -> Result<FileList, AllocError>
        ensures held { IfOk result (λ files. (name : List ℕ) → held_under files name ≡ text_named held name) }
        ensures rooms { IfOk result (λ files. (name : List ℕ) → room_under files name ≡ room_named rooms name) }
    {
        let mut files = Vec::new(alloc);
        add_texts(&mut files, held, &rooms)?;
        add_rooms(alloc, &mut files, rooms)?;
        Ok(FileList { files })
    }

    /// Where the file of this name is.
    fn place_of(&self, name: &str) -> Option<usize>
        ensures { result ≡ place_of self.now name.now }
    {
        self.files.iter().position(|file| file.has_name(name))
    }

    /// The place of a name, where there is such a file.
    pub(crate) fn place_to_read(&self, name: &str) -> Option<usize>
        ensures found { IfSome result (λ i. (place_of self.now name.now ≡ Some i) × (i < length self.now)) }
        ensures none { IsNone result ↔ (held_under self.now name.now ≡ None) }
    {
        let place = self.place_of(name)?;
        if self.files[place].is_there() {
            Some(place)
        } else {
            None
        }
    }

    /// The place of a name, where it may be written.
    pub(crate) fn place_to_write(&self, name: &str) -> Option<usize>
        ensures found { IfSome result (λ i. (place_of self.now name.now ≡ Some i) × (i < length self.now)) }
        ensures none { IsNone result ↔ (room_under self.now name.now ≡ None) }
    {
        let place = self.place_of(name)?;
        if self.files[place].is_writable() {
            Some(place)
        } else {
            None
        }
    }

    /// What the file at a place holds; nothing where there is no such file.
    pub(crate) fn text(&self, place: usize) -> &[u8]
        requires { place < length self.now }
        ensures { result.now ≡ text_at self.now place }
    {
        self.files[place].bytes()
    }

    /// How many bytes the file at a place may still grow by.
    pub(crate) fn room_left(&self, place: usize) -> usize
        requires { place < length self.now }
        ensures { result ≡ room_at self.now place - length (text_at self.now place) }
    {
        self.files[place].room_left()
    }

    /// Makes the file at a place hold nothing.
    pub(crate) fn clear(&mut self, place: usize)
        requires { place < length self.old }
        ensures { self.new ≡ holding self.old place [] }
    {
        self.files[place].clear();
    }

    /// Puts the piece at the end of the file at a place.
    pub(crate) fn append(&mut self, place: usize, piece: &[u8])
        requires there { place < length self.old }
        requires fits { length (text_at self.old place) + length piece.now ≤ room_at self.old place }
        ensures { self.new ≡ holding self.old place (text_at self.old place ++ piece.now) }
    {
        self.files[place].append(piece);
    }
}

fn add_texts(files: &mut Vec<MemFile>, held: Texts, rooms: &Rooms) -> Result<(), AllocError>
    ensures { OnOk result (files.new.items ≡ files.old.items ++ map (file_with rooms.now) held) }
{
    let Texts { texts } = held;
    for text in texts {
        let room = rooms.room_of(text.name.as_str());
        files.push(MemFile::with_text(text, room)?)?;
    }
    Ok(())
}

fn add_rooms(alloc: Global, files: &mut Vec<MemFile>, rooms: Rooms) -> Result<(), AllocError>
    ensures { OnOk result (files.new.items ≡ files.old.items ++ map file_without rooms) }
{
    let Rooms { rooms } = rooms;
    for room in rooms {
        files.push(MemFile::unwritten(alloc, room)?)?;
    }
    Ok(())
}
