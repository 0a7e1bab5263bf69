//! Truth values as bits of words.
ghost use Rattle.std.specs.Prelude.{◌≡◌, ◌<◌, ◌*◌, ◌==◌, length};
ghost use Rattle.std.specs.Int.{bit_at};
ghost use Rattle.sat_base.specs.Bits.{with_bit, with_truth};

/// The truth value of a bit.
pub(crate) fn read(word: u64, at: usize) -> bool
    requires { at < 64 }
    ensures { result ≡ (bit_at word at == 1) }
{
    (word >> at) & 1 == 1
}

/// Writes the truth value at a place.
pub(crate) fn write(words: &mut Vec<u64>, at: usize, value: bool)
    requires { at < 64 * length words.old.items }
    ensures { words.new.items ≡ with_truth words.old.items at value }
{
    words[at / 64] = with_bit(words[at / 64], at % 64, value);
}

/// The word with one bit set or cleared.
pub(crate) fn with_bit(word: u64, at: usize, value: bool) -> u64
    requires { at < 64 }
    ensures { result ≡ with_bit word at value }
{
    let bit = 1 << at;
    if value { word | bit } else { word & !bit }
}
