//! Values of variables.
ghost use Rattle.std.specs.Prelude.{◌≡◌};
ghost use Rattle.trail_book.specs.Values.{value_by};

use sat_base::Lit;

/// What the trail makes of a variable.
#[derive(Clone, Copy, PartialEq, Eq)]
pub(crate) enum Value {
    Unset,
    True,
    False,
}

impl Value {
    /// The value that makes the literal true.
    pub fn by(lit: Lit) -> Value
        ensures { result ≡ value_by lit }
    {
        if lit.is_positive() {
            Value::True
        } else {
            Value::False
        }
    }
}
