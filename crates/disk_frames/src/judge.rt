//! Who says which texts a journal may hold.
ghost use Rattle.std.specs.Prelude.{◌≡◌, true, false, List, ℕ, IfOk};
ghost use Rattle.disk_frames.specs.Salvage.{IsOneWay};

use std::alloc::AllocError;

/// Takes texts in order, and only those that may come behind the ones that it took. It keeps of them what it needs to
/// judge the next one, so that a salvage costs no more for the last text than for the first.
pub trait Judge {
    /// What it judges by. No call changes it.
    type Rule;

    /// What it keeps of the texts that it took: the texts themselves, or what it read from them.
    type Kept;

    ghost rule: { Self → Self.Rule };

    ghost kept: { Self → Self.Kept };

    /// Whether a text may come behind those of which something was kept, and what is kept then.
    ghost fits: { Self.Rule → Self.Kept → List ℕ → Self.Kept → Type 0 };

    /// Takes the text where it may come next, and answers whether it did.
    fn take(&mut self, text: &[u8]) -> Result<bool, AllocError>
        ensures rule { rule self.new ≡ rule self.old }
        ensures taken { IfOk result (λ b. b ≡ true → fits (rule self.old) (kept self.old) text.now (kept self.new)) }
        ensures refused { IfOk result (λ b. b ≡ false → (next : Self.Kept) → ¬ fits (rule self.old) (kept self.old) text.now next) };

    /// What is kept after a text is determined.
    ghost one_way: { IsOneWay fits };
}
