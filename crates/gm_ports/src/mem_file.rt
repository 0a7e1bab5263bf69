//! One name of the files in memory.
//!
//! The bytes stand in a buffer that has the whole room from the start on, so that no write takes memory.
ghost use Rattle.std.specs.Prelude.{◌≡◌, ◌≤◌, ◌+◌, ◌-◌, ◌++◌, ◌↔◌, [], Some, None, IfOk, IsTrue, IsSome, length, unwrap_or};
ghost use Rattle.std.specs.Str.{bytes_eq};

use crate::rooms::Room;
use crate::texts::Text;
use std::alloc::{AllocError, Global};
use std::marker::Model;

/// A name, whether there is such a file and what it holds, and its room where it may be written.
#[derive(Drop)]
pub(crate) struct MemFile {
    name: String,
    bytes: Vec<u8>,
    is_there: bool,
    room: Option<u64>,
}

impl Model for MemFile {
    ghost use Rattle.std.specs.Prelude.{◌≡◌, ◌≤◌, [], Some, None, IfSome, if◌then◌else◌, false};
    ghost use Rattle.std.specs.String.{string_bytes};
    ghost use Rattle.std.specs.Vec.{vec_capacity};
    ghost use Rattle.gm_ports.specs.MemFiles.{MemFileState};

    ghost Value = { MemFileState };

    ghost view = { λ f. record {
      name = string_bytes f.name;
      bytes = if f.is_there then Some f.bytes.items else None;
      room = f.room;
    } };

    ghost invariant = { λ f. IfSome f.room (λ room. room ≤ vec_capacity f.bytes) × (f.is_there ≡ false → f.bytes.items ≡ []) };
}

impl MemFile {
    /// A file that is there from the start on.
    pub(crate) fn with_text(text: Text, room: Option<u64>) -> Result<MemFile, AllocError>
        ensures { IfOk result (λ file. file
            ≡ record { name = text.name; bytes = Some text.bytes; room = room }) }
    {
        let Text { name, mut bytes } = text;
        let wanted = room.unwrap_or(0) as usize;
        bytes.reserve(wanted.saturating_sub(bytes.len()))?;
        Ok(MemFile {
            name,
            bytes,
            is_there: true,
            room,
        })
    }

    /// A name that may be written, and under which no file is there yet.
    pub(crate) fn unwritten(alloc: Global, room: Room) -> Result<MemFile, AllocError>
        ensures { IfOk result (λ file. file
            ≡ record { name = room.name; bytes = None; room = Some room.room }) }
    {
        let Room { name, room } = room;
        Ok(MemFile {
            name,
            bytes: Vec::with_capacity(alloc, room as usize)?,
            is_there: false,
            room: Some(room),
        })
    }

    pub(crate) fn has_name(&self, name: &str) -> bool
        ensures { result ≡ bytes_eq self.now.name name.now }
    {
        self.name.as_str() == name
    }

    pub(crate) fn is_there(&self) -> bool
        ensures { IsTrue result ↔ IsSome self.now.bytes }
    {
        self.is_there
    }

    pub(crate) fn is_writable(&self) -> bool
        ensures { IsTrue result ↔ IsSome self.now.room }
    {
        self.room.is_some()
    }

    /// What it holds; nothing where there is no such file.
    pub(crate) fn bytes(&self) -> &[u8]
        ensures { result.now ≡ unwrap_or self.now.bytes [] }
    {
        self.bytes.as_slice()
    }

    /// How many bytes it may still grow by.
    pub(crate) fn room_left(&self) -> usize
        ensures { result ≡ unwrap_or self.now.room 0 - length (unwrap_or self.now.bytes []) }
    {
        (self.room.unwrap_or(0) as usize).saturating_sub(self.bytes.len())
    }

    /// Makes it a file that holds nothing.
    pub(crate) fn clear(&mut self)
        ensures { self.new ≡ record self.old { bytes = Some [] } }
    {
        self.bytes.clear();
        self.is_there = true;
    }

    /// Puts the piece at the end.
    pub(crate) fn append(&mut self, piece: &[u8])
        requires { length (unwrap_or self.old.bytes []) + length piece.now ≤ unwrap_or self.old.room 0 }
        ensures { self.new ≡ record self.old { bytes = Some (unwrap_or self.old.bytes [] ++ piece.now) } }
    {
        if self.bytes.extend_from_slice(piece).is_err() {
            unreachable!()
        }
        self.is_there = true;
    }
}
