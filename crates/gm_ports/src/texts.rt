//! Named texts.
ghost use Rattle.std.specs.Prelude.{◌≡◌, ◌++◌, ◌∷◌, [], OnOk, OnErr};

use std::alloc::{AllocError, Global};
use std::marker::Model;

/// Texts under their names, as a list in the order in which they were put in.
#[derive(Drop)]
pub struct Texts {
    pub(crate) texts: Vec<Text>,
}

/// A text and its name.
#[derive(Drop)]
pub(crate) struct Text {
    pub(crate) name: String,
    pub(crate) bytes: Vec<u8>,
}

impl Model for Text {
    ghost use Rattle.std.specs.String.{string_bytes};
    ghost use Rattle.gm_ports.specs.Texts.{NamedText};

    ghost Value = { NamedText };

    ghost view = { λ t. record { name = string_bytes t.name; bytes = t.bytes.items } };
}

impl Model for Texts {
    ghost use Rattle.std.specs.Prelude.{List};
    ghost use Rattle.gm_ports.specs.Texts.{NamedText};

    ghost Value = { List NamedText };

    ghost view = { λ t. t.texts.items };
}

impl Texts {
    pub fn new(alloc: Global) -> Self
        ensures { result ≡ [] }
    {
        Texts {
            texts: Vec::new(alloc),
        }
    }

    /// Puts a copy of the text at the end. Of two texts of one name only the first is found.
    pub fn push(&mut self, alloc: Global, name: &str, bytes: &[u8]) -> Result<(), AllocError>
        ensures ok { OnOk result (self.new ≡ self.old ++ record { name = name.now; bytes = bytes.now } ∷ []) }
        ensures err { OnErr result (self.new ≡ self.old) }
    {
        let text = Text {
            name: String::from_str(alloc, name)?,
            bytes: Vec::from_slice(alloc, bytes)?,
        };
        self.texts.push(text)?;
        Ok(())
    }
}
