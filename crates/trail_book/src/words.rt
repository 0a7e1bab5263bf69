//! The true literals as a set, where there are few variables.
ghost use Rattle.std.specs.Prelude.{◌≡◌, ◌≢◌, ◌⊎◌, ◌↔◌, ◌≤◌, ℤ};
ghost use Rattle.sat_base.specs.Literals.{IsLiteral};
ghost use Rattle.lit_words.specs.Words.{Has};

use lit_words::LitWords;
use sat_base::Lit;

/// The greatest number of variables of which a set is two words.
pub(crate) const FEW: u32 = 64;

/// Puts a literal in, where there are few variables.
pub(crate) fn note_true(words: &mut LitWords, vars: u32, lit: Lit)
    requires { IsLiteral vars lit }
    ensures { vars ≤ 64 → (x : ℤ) → Has words.new x ↔ ((x ≡ lit) ⊎ Has words.old x) }
{
    if vars <= FEW {
        words.insert(lit);
    }
}

/// Takes a literal out, where there are few variables.
pub(crate) fn note_unset(words: &mut LitWords, vars: u32, lit: Lit)
    requires { IsLiteral vars lit }
    ensures { vars ≤ 64 → (x : ℤ) → Has words.new x ↔ ((x ≢ lit) × Has words.old x) }
{
    if vars <= FEW {
        words.remove(lit);
    }
}
