//! Laws over the definitions alone. Each is the contract of a function that has no code.
ghost use Rattle.gcnf_text.specs.Laws.{FaultlessIsRead, ReadIsFaultless, ReadsOne, FirstOffenceStops};
ghost use Rattle.gcnf_text.specs.Plain.{PlainIsRead, PlainIsShort};

/// A text without an offence is one of a problem.
pub fn faultless_is_read()
    ensures { FaultlessIsRead }
{}

/// A text of a problem has no offence.
pub fn read_is_faultless()
    ensures { ReadIsFaultless }
{}

/// A text is one of at most one problem: its bytes say all of it.
pub fn reads_one_problem()
    ensures { ReadsOne }
{}

/// The first offence of a text within the limit of bytes stands where no text of a problem goes on.
pub fn first_offence_stops()
    ensures { FirstOffenceStops }
{}

/// The plain text of a problem is one of that problem, where both are within the limits.
pub fn plain_text_is_read()
    ensures { PlainIsRead }
{}

/// How long the plain text of a problem within the limits can be.
pub fn plain_text_is_short()
    ensures { PlainIsShort }
{}
