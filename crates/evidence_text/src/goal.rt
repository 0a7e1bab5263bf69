//! What a derivation of a text is for.
ghost use Rattle.std.specs.Prelude.{◌≡◌};
ghost use Rattle.evidence_text.specs.Reading.{goal_letter};

/// The goal of a derivation.
#[derive(Clone, Copy, Debug)]
pub(crate) enum Goal {
    /// It refutes a group of a correction, or under the number 0 a conflict.
    Refutes(u32),
    /// It closes the text.
    Exhausts,
}

impl Goal {
    /// The letter of its line.
    pub(crate) fn letter(self) -> u8
        ensures { result ≡ goal_letter self }
    {
        match self {
            Goal::Refutes(_) => b'r',
            Goal::Exhausts => b'x',
        }
    }
}
