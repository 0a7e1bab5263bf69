//! Laws over the definitions alone. Each is the contract of a function that has no code.
ghost use Rattle.size_counter.specs.Sizes.{DistinctFit, SetsAreDistinct, KindHasSize};
ghost use Rattle.size_counter.specs.Laws.{FewExtend, ExtendedAreFew, GroupIsRow, AreOverVars, VarsAreApart, CounterHasSize};
ghost use Rattle.size_counter.specs.LevelLaws.{LevelFewExtend, LevelExtendedAreFew, LevelIsOverVars, NamingGrows, NamesAreOrder, LevelHasOrder, LevelParts};

/// Numbers that differ are at most as many as the numbers of a list that has them all, and those of a set differ.
pub fn distinct_numbers()
    ensures fit { DistinctFit }
    ensures sets { SetsAreDistinct }
{}

/// How the size of a minimal set is read off the set that its record is found at.
pub fn sizes()
    ensures { KindHasSize }
{}

/// The assignments of the groups that a counter leaves are those that count at most the bound.
pub fn counter_bounds()
    ensures few { FewExtend }
    ensures no_other { ExtendedAreFew }
{}

/// A group more is a row more.
pub fn counter_grows()
    ensures { GroupIsRow }
{}

/// Its variables, and how many clauses there are.
pub fn counter_sizes()
    ensures over { AreOverVars }
    ensures apart { VarsAreApart }
    ensures clauses { CounterHasSize }
{}

/// The same of a level, which has a counter only if more groups are there than may count.
pub fn level_bounds()
    ensures few { LevelFewExtend }
    ensures no_other { LevelExtendedAreFew }
    ensures over { LevelIsOverVars }
{}

/// What sets name, one by one or all, and how a level parts the groups that were named.
pub fn level_parts()
    ensures grows { NamingGrows }
    ensures named { NamesAreOrder }
    ensures order { LevelHasOrder }
    ensures parts { LevelParts }
{}
