//! Laws over the definitions alone. Each is the contract of a function that has no code.
ghost use Rattle.gm_base.specs.Laws.{GroupsKeepUnsat, ClausesKeepUnsat, ConflictBySingles, CorrectionBySingles, TestsDecide, ConflictByEvidence, HoldsOrMisses, HitEachOther, ModelsAreUnexplored};

/// More groups keep unsatisfiability.
pub fn groups_keep_unsat()
    ensures { GroupsKeepUnsat }
{}

/// More clauses keep unsatisfiability.
pub fn clauses_keep_unsat()
    ensures { ClausesKeepUnsat }
{}

/// Minimality by the removal of single groups is minimality by proper subsets.
pub fn single_removals()
    ensures conflict { ConflictBySingles }
    ensures correction { CorrectionBySingles }
{}

/// The tests by which the lists of all conflicts and corrections are filtered decide the facts.
pub fn tests_decide()
    ensures { TestsDecide }
{}

/// Accepted evidence shows a minimal conflict, whoever made it.
pub fn accepted_is_minimal()
    ensures { ConflictByEvidence }
{}

/// Each set of groups holds a minimal conflict or misses a minimal correction, and these are each other's minimal hitting
/// sets.
pub fn conflicts_and_corrections()
    ensures holds_or_misses { HoldsOrMisses }
    ensures hit_each_other { HitEachOther }
{}

/// The models of the block clauses, read as sets, are exactly the sets that nothing explores.
pub fn models_are_unexplored()
    ensures { ModelsAreUnexplored }
{}
