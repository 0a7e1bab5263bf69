//! Laws of records over the definitions alone. Each is the contract of a function that has no code.
ghost use Rattle.evidence_rec.specs.Laws.{AcceptedAreRight, AcceptedBehind, AcceptedAlone};
ghost use Rattle.evidence_rec.specs.Shorten.{LeastServes, ShortenedAreAccepted, ShortenedKeepSets, ShortenedStay};
ghost use Rattle.evidence_rec.specs.Held.{ExploredHoldsAll, ClosingExploresAll, HeldAreExactlyAll};

/// Records that are accepted, each with those before it, are of minimal sets.
pub fn accepted_are_right()
    ensures { AcceptedAreRight }
{}

/// How acceptance is kept where a list grows at its end.
pub fn accepted_in_longer_lists()
    ensures behind { AcceptedBehind }
    ensures alone { AcceptedAlone }
{}

/// What it takes that accepted records hold all minimal sets, and what they are then.
pub fn accepted_records_hold_all()
    ensures explored { ExploredHoldsAll }
    ensures closing { ClosingExploresAll }
    ensures exactly { HeldAreExactlyAll }
{}

/// What a shortened record names, and what stays of records that are shortened.
pub fn shortened_records()
    ensures least { LeastServes }
    ensures accepted { ShortenedAreAccepted }
    ensures sets { ShortenedKeepSets }
    ensures again { ShortenedStay }
{}
