//! Lists of sets of groups that are lent.
ghost use Rattle.std.specs.Prelude.{◌≡◌, ◌↔◌, [], ◌∷◌, ◌++◌, IsTrue, OnOk, OnErr, length};
ghost use Rattle.gm_base.specs.Lent.{lists_of};

use crate::group_set::GroupSet;
use std::alloc::{AllocError, Global};
use std::marker::Model;

/// Sets of groups, in the order in which they were added. They stay where they are: the list holds references.
#[derive(Drop)]
pub struct Sets<'a> {
    items: Vec<&'a GroupSet>,
}

impl<'a> Model for Sets<'a> {
    ghost use Rattle.std.specs.Prelude.{List, ℕ};
    ghost use Rattle.gm_base.specs.Lent.{lists_of};

    ghost Value = { List (List ℕ) };

    ghost view = { λ sets. lists_of sets.items.items };
}

impl<'a> Sets<'a> {
    /// No sets. It takes no memory.
    pub fn new(alloc: Global) -> Sets<'a>
        ensures { result ≡ [] }
    {
        Sets {
            items: Vec::new(alloc),
        }
    }

    /// Adds a set at the end.
    pub fn push(&mut self, set: &'a GroupSet) -> Result<(), AllocError>
        ensures ok { OnOk result (self.new ≡ self.old ++ set.now ∷ []) }
        ensures err { OnErr result (self.new ≡ self.old) }
    {
        self.items.push(set)?;
        Ok(())
    }

    pub fn as_slice(&self) -> &[&'a GroupSet]
        ensures { lists_of result.now ≡ self.now }
    {
        self.items.as_slice()
    }

    pub fn len(&self) -> usize
        ensures { result ≡ length self.now }
    {
        self.items.len()
    }

    pub fn is_empty(&self) -> bool
        ensures { IsTrue result ↔ (self.now ≡ []) }
    {
        self.items.is_empty()
    }
}
