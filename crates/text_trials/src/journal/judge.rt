//! A judge of texts.
ghost use Rattle.std.specs.Prelude.{◌≡◌, ◌+◌, ◌<◌, length, vec_len};
ghost use Rattle.std.proofs.Common.{◌∙◌, sym};

use disk_frames::Judge;
use std::alloc::{AllocError, Global};

/// Takes each text that is not empty.
#[derive(Drop)]
pub struct SomeTexts {
    alloc: Global,
    taken: Vec<Vec<u8>>,
}

impl SomeTexts {
    pub fn new(alloc: Global) -> SomeTexts {
        SomeTexts {
            alloc,
            taken: Vec::new(alloc),
        }
    }

    pub fn texts(&self) -> &[Vec<u8>] {
        self.taken.as_slice()
    }
}

impl Judge for SomeTexts {
    type Rule = ();

    type Kept = usize;

    ghost rule = { λ j. tt };

    // how many it took
    ghost kept = { λ j. vec_len j.taken };

    ghost fits = { λ rule before text after. (0 < length text) × (after ≡ before + 1) };

    fn take(&mut self, text: &[u8]) -> Result<bool, AllocError> {
        if text.is_empty() {
            return Ok(false);
        }
        self.taken.push(text.to_vec(self.alloc)?)?;
        Ok(true)
    }

    ghost one_way = { λ rule before text after other a b. a.1 ∙ sym b.1 };
}
