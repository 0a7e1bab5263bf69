//! Laws of narrowed problems over the definitions alone. Each is the contract of a function that has no code.
ghost use Rattle.focus_roles.specs.Laws.{ConflictsNarrowed, CorrectionsNarrowed, SatNarrowed};

/// What the narrowed problem's sets, its minimal conflicts and its minimal corrections are.
pub fn narrowed_sets()
    ensures sat { SatNarrowed }
    ensures conflicts { ConflictsNarrowed }
    ensures corrections { CorrectionsNarrowed }
{}
