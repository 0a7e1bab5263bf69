//! What a text of evidence is refused for.
ghost use Rattle.std.specs.Prelude.{◌≡◌};
ghost use Rattle.lrat_check.specs.Numbers.{number_of, name_of};

/// How many variables, groups and clauses a problem has.
#[derive(Clone, Copy, Debug, PartialEq, Eq)]
pub struct Counts {
    pub vars: u64,
    pub groups: u64,
    pub clauses: u64,
}

/// The counts that a text names, and those of the problem that it is checked against.
#[derive(Clone, Copy, Debug, PartialEq, Eq)]
pub struct Mismatch {
    pub text: Counts,
    pub problem: Counts,
}

/// Why evidence is refused. This crate gives the six reasons from `UnknownHint` to `BadLiteral`.
#[derive(Clone, Copy, Debug, PartialEq, Eq)]
pub enum Why {
    /// A line has another form.
    BadLine,
    /// A word is no number of the form that is due, or is out of its range.
    BadNumber,
    /// The text ends too early.
    Truncated,
    /// The text is about another problem.
    OtherProblem(Mismatch),
    /// There is more behind the end.
    TrailingText,
    /// The text is too long.
    TooLong,
    /// A hint names no clause so far.
    UnknownHint,
    /// The clause of a hint before the last has two different literals that are not false.
    NotUnit,
    /// The clause of the last hint has a literal that is not false, or there are no hints.
    NotFalse,
    /// A clause is false before the last hint.
    HintsLeft,
    /// An id is not above all earlier ones.
    IdNotRising,
    /// A literal is over no variable of the problem, or stands with its negation.
    BadLiteral,
    /// A name that is no clause's.
    UnknownClause,
    /// A derivation that does not end in what it has to refute.
    NotRefuting,
    /// An assignment that does not satisfy what it has to.
    WitnessFails,
    /// A set that stood before.
    RepeatedSet,
    /// A number that is no earlier record's.
    UnknownRecord,
    /// An earlier record that is a correction, or a conflict with another group of this correction.
    NotInside,
}

impl Why {
    /// Its number, from 1 to 6 for the form of the text, from 10 to 21 for what the text says.
    pub fn number(&self) -> u32
        ensures { result ≡ number_of self.now }
    {
        match *self {
            Why::BadLine => 1,
            Why::BadNumber => 2,
            Why::Truncated => 3,
            Why::OtherProblem(_) => 4,
            Why::TrailingText => 5,
            Why::TooLong => 6,
            Why::UnknownHint => 10,
            Why::NotUnit => 11,
            Why::NotFalse => 12,
            Why::HintsLeft => 13,
            Why::IdNotRising => 14,
            Why::BadLiteral => 15,
            Why::UnknownClause => 16,
            Why::NotRefuting => 17,
            Why::WitnessFails => 18,
            Why::RepeatedSet => 19,
            Why::UnknownRecord => 20,
            Why::NotInside => 21,
        }
    }

    /// Its name.
    pub fn name(&self) -> &'static str
        ensures { result.now ≡ name_of self.now }
    {
        match *self {
            Why::BadLine => "BadLine",
            Why::BadNumber => "BadNumber",
            Why::Truncated => "Truncated",
            Why::OtherProblem(_) => "OtherProblem",
            Why::TrailingText => "TrailingText",
            Why::TooLong => "TooLong",
            Why::UnknownHint => "UnknownHint",
            Why::NotUnit => "NotUnit",
            Why::NotFalse => "NotFalse",
            Why::HintsLeft => "HintsLeft",
            Why::IdNotRising => "IdNotRising",
            Why::BadLiteral => "BadLiteral",
            Why::UnknownClause => "UnknownClause",
            Why::NotRefuting => "NotRefuting",
            Why::WitnessFails => "WitnessFails",
            Why::RepeatedSet => "RepeatedSet",
            Why::UnknownRecord => "UnknownRecord",
            Why::NotInside => "NotInside",
        }
    }
}
