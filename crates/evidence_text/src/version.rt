//! The versions of a text.
ghost use Rattle.std.specs.Prelude.{◌≡◌};
ghost use Rattle.evidence_text.specs.Text.{version_number};
ghost use Rattle.evidence_text.specs.Reading.{version_of};

/// A version of the text of evidence.
#[derive(Clone, Copy)]
pub enum Version {
    /// Each refutation of a correction has its steps.
    One,
    /// A refutation of a correction may be the number of an earlier record.
    Two,
}

impl Version {
    /// The version of a number that is 1 or 2.
    pub(crate) fn of_number(number: u64) -> Version
        ensures { result ≡ version_of number }
    {
        if number == 1 {
            Version::One
        } else {
            Version::Two
        }
    }

    /// Its number, as the head has it.
    pub(crate) fn number(self) -> u64
        ensures { result ≡ version_number self }
    {
        match self {
            Version::One => 1,
            Version::Two => 2,
        }
    }
}
