//! A name that only clauses read.
ghost use Rattle.std.specs.Prelude.{◌≡◌, ◌<◌, ◌^◌, [], IfOk, length};

use std::alloc::{AllocError, Global};
use std::marker::Model;
use std::snapshot::Snapshot;

/// The last name that was kept, at first one without a byte. It takes no memory.
#[derive(Drop)]
pub(crate) struct KeptName {
    bytes: Vec<Snapshot<u8>>,
}

impl Model for KeptName {
    ghost use Rattle.std.specs.Prelude.{◌≡◌, ◌-◌, ◌^◌, ℕ, List, map};
    ghost use Rattle.std.specs.Vec.{vec_capacity};

    ghost Value = { List ℕ };

    ghost view = { λ n. map (λ byte. byte.value) n.bytes.items };

    // A snapshot has no bytes, so there is room for any name: no text is longer.
    ghost invariant = { λ n. vec_capacity n.bytes ≡ 2 ^ 63 - 1 };
}

impl KeptName {
    pub(crate) fn new(alloc: Global) -> Result<KeptName, AllocError>
        ensures { IfOk result (λ name. name ≡ []) }
    {
        Ok(KeptName {
            bytes: Vec::with_capacity(alloc, isize::MAX as usize)?,
        })
    }

    /// Keeps this name in the place of the last one.
    pub(crate) fn keep(&mut self, name: &str)
        requires { length name.now < 2 ^ 63 }
        ensures { self.new ≡ name.now }
    {
        self.bytes.clear();
        'bytes: for byte in name.as_bytes() {
            self.bytes.push_reserved(Snapshot::of(byte));
        }
    }
}
