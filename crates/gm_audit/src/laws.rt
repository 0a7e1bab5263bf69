//! Laws over the definitions alone. Each is the contract of a function that has no code.
ghost use Rattle.gm_audit.specs.Audits.{CompleteIsExact, NoneIsYes, YesIsOne, WrittenIsYes, ShortenedIsYes};

/// Complete evidence shows all minimal sets, whoever wrote it.
pub fn complete_is_exact()
    ensures { CompleteIsExact }
{}

/// A text of evidence is refused for nothing exactly where it shows what it says, and then it is of one list of records.
pub fn yes_is_unrefused()
    ensures exactly { NoneIsYes }
    ensures one { YesIsOne }
    ensures written { WrittenIsYes }
    ensures shortened { ShortenedIsYes }
{}
