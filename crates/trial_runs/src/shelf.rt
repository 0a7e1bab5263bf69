//! Texts under their names.
use std::alloc::{AllocError, Global};

/// A text and its name.
#[derive(Drop)]
pub struct Named {
    pub name: String,
    pub text: Vec<u8>,
}

/// Texts, of which no two have one name.
#[derive(Drop)]
pub struct Shelf {
    texts: Vec<Named>,
}

impl Shelf {
    pub fn new(alloc: Global) -> Self {
        Shelf {
            texts: Vec::new(alloc),
        }
    }

    /// Puts a text under a name, in place of the one that was there.
    pub fn put(&mut self, alloc: Global, name: &str, text: Vec<u8>) -> Result<(), AllocError> {
        let name = String::from_str(alloc, name)?;
        self.texts
            .retain(|named| named.name.as_str() != name.as_str());
        self.texts.push(Named { name, text })?;
        Ok(())
    }

    pub fn find(&self, name: &str) -> Option<&[u8]> {
        for named in &self.texts {
            if named.name.as_str() == name {
                return Some(named.text.as_slice());
            }
        }
        None
    }

    pub fn all(&self) -> &[Named] {
        self.texts.as_slice()
    }
}
