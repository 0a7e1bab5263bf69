//! Words, bit by bit.
ghost use Rattle.std.specs.Prelude.{◌≡◌, ◌≢◌, ◌⊎◌, ◌↔◌, ℕ, ◌<◌, IfSome, IfNone};
ghost use Rattle.std.specs.Int.{bit_at};

/// The word with this bit set.
pub(crate) fn with_bit(word: u64, bit: u32) -> u64
    requires { bit < 64 }
    ensures { (i : ℕ) → (bit_at result i ≡ 1) ↔ ((i ≡ bit) ⊎ (bit_at word i ≡ 1)) }
{
    word | (1 << bit)
}

/// The word with this bit cleared.
pub(crate) fn without_bit(word: u64, bit: u32) -> u64
    requires { bit < 64 }
    ensures { (i : ℕ) → (bit_at result i ≡ 1) ↔ ((i ≢ bit) × (bit_at word i ≡ 1)) }
{
    word & !(1 << bit)
}

/// The bits that both have.
pub(crate) fn both(word: u64, other: u64) -> u64
    ensures { (i : ℕ) → (bit_at result i ≡ 1) ↔ ((bit_at word i ≡ 1) × (bit_at other i ≡ 1)) }
{
    word & other
}

/// The bits that the other one has not.
pub(crate) fn without(word: u64, other: u64) -> u64
    ensures { (i : ℕ) → (bit_at result i ≡ 1) ↔ ((bit_at word i ≡ 1) × (bit_at other i ≢ 1)) }
{
    word & !other
}

/// The place of the lowest bit.
pub(crate) fn lowest(word: u64) -> Option<u32>
    ensures some { IfSome result (λ i. (i < 64) × (bit_at word i ≡ 1)) }
    ensures none { IfNone result ((i : ℕ) → bit_at word i ≢ 1) }
{
    if word == 0 {
        None
    } else {
        Some(word.trailing_zeros())
    }
}
