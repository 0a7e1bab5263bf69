//! Laws over the definitions alone. Each is the contract of a function that has no code.
ghost use Rattle.size_levels.specs.Laws.{LevelExplores, ExploredIsShown, AcceptedAreOfProblem, LevelOfRecords, RecordsAreShown, ExploredHoldsUpTo, MissingIsLarger, HeldAreExactlyUpTo, BySizeHasAll, LevelForIsLeast, PackedAreFewer};

/// What a derivation over the clauses of a level shows, whoever made it, and that there is one where it can be shown.
pub fn level_is_shown()
    ensures explores { LevelExplores }
    ensures complete { ExploredIsShown }
{}

/// The same of accepted records.
pub fn level_of_records()
    ensures within { AcceptedAreOfProblem }
    ensures explores { LevelOfRecords }
    ensures complete { RecordsAreShown }
{}

/// What accepted records hold that explore all sets at which few groups count.
pub fn few_are_held()
    ensures holds { ExploredHoldsUpTo }
    ensures missing { MissingIsLarger }
    ensures exactly { HeldAreExactlyUpTo }
{}

/// The list in order of size has just the sets with few groups, and up to which size as many as wanted are there.
pub fn in_order_of_size()
    ensures all { BySizeHasAll }
    ensures least { LevelForIsLeast }
{}

/// How many groups a minimal set has at least.
pub fn sets_have_so_many()
    ensures { PackedAreFewer }
{}
