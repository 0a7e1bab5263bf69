//! Names that may be written.
ghost use Rattle.std.specs.Prelude.{◌≡◌, ◌++◌, ◌∷◌, [], OnOk, OnErr};
ghost use Rattle.gm_ports.specs.Texts.{room_named};

use std::alloc::{AllocError, Global};
use std::marker::Model;

/// Names that may be written, each with its room in bytes, as a list in the order in which they were put in.
#[derive(Drop)]
pub struct Rooms {
    pub(crate) rooms: Vec<Room>,
}

/// A name and its room.
#[derive(Drop)]
pub(crate) struct Room {
    pub(crate) name: String,
    pub(crate) room: u64,
}

impl Model for Room {
    ghost use Rattle.std.specs.String.{string_bytes};
    ghost use Rattle.gm_ports.specs.Texts.{NamedRoom};

    ghost Value = { NamedRoom };

    ghost view = { λ r. record { name = string_bytes r.name; room = r.room } };
}

impl Model for Rooms {
    ghost use Rattle.std.specs.Prelude.{List};
    ghost use Rattle.gm_ports.specs.Texts.{NamedRoom};

    ghost Value = { List NamedRoom };

    ghost view = { λ r. r.rooms.items };
}

impl Rooms {
    pub fn new(alloc: Global) -> Self
        ensures { result ≡ [] }
    {
        Rooms {
            rooms: Vec::new(alloc),
        }
    }

    /// Puts a name at the end. Of two rooms of one name only the first counts.
    pub fn push(&mut self, alloc: Global, name: &str, room: u64) -> Result<(), AllocError>
        ensures ok { OnOk result (self.new ≡ self.old ++ record { name = name.now; room = room } ∷ []) }
        ensures err { OnErr result (self.new ≡ self.old) }
    {
        let room = Room {
            name: String::from_str(alloc, name)?,
            room,
        };
        self.rooms.push(room)?;
        Ok(())
    }

    /// The room of a name, where it may be written.
    pub(crate) fn room_of(&self, name: &str) -> Option<u64>
        ensures { result ≡ room_named self.now name.now }
    {
        self.rooms
            .iter()
            .find(|room| room.name.as_str() == name)
            .map(|room| room.room)
    }
}
