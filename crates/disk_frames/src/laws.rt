//! What the bytes of a disk say of a journal.
ghost use Rattle.std.specs.Prelude.{◌≡◌, ℕ, List, Option, Some, length};
ghost use Rattle.disk_frames.specs.Frames.{HoldsTexts, frames};
ghost use Rattle.disk_frames.specs.Salvage.{AreNext, IsSalvaged, IsForeign};

use crate::Judge;

/// Bytes are salvaged in one way, and are not foreign then; they are foreign at one place at most; and a disk that holds
/// texts which may come one behind the other is salvaged with just these. It does nothing.
pub fn laws_of_salvage<J: Judge>(_judge: &J)
    ensures crash { (bytes : List ℕ) (texts : List (List ℕ)) (first kept : J.Kept) → HoldsTexts texts bytes
        → AreNext (J.fits (J.rule _judge.now)) first texts kept
        → (last : Option ℕ) × IsSalvaged (J.fits (J.rule _judge.now)) first bytes texts kept (length (frames texts)) last }
    ensures unique { (bytes : List ℕ) (texts others : List (List ℕ)) (first kept taken : J.Kept) (gate place : ℕ) (last byte : Option ℕ)
        → IsSalvaged (J.fits (J.rule _judge.now)) first bytes texts kept gate last
        → IsSalvaged (J.fits (J.rule _judge.now)) first bytes others taken place byte
        → (texts ≡ others) × (kept ≡ taken) × (gate ≡ place) × (last ≡ byte) }
    ensures not_foreign { (bytes : List ℕ) (texts : List (List ℕ)) (first kept : J.Kept) (gate at : ℕ) (last : Option ℕ)
        → IsSalvaged (J.fits (J.rule _judge.now)) first bytes texts kept gate last
        → IsForeign (J.fits (J.rule _judge.now)) first bytes at → ⊥ }
    ensures one_place { (bytes : List ℕ) (first : J.Kept) (at place : ℕ) → IsForeign (J.fits (J.rule _judge.now)) first bytes at
        → IsForeign (J.fits (J.rule _judge.now)) first bytes place → at ≡ place }
{}
