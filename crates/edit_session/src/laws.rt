//! Laws of longer problems over the definitions alone. Each is the contract of a function that has no code.
ghost use Rattle.edit_session.specs.Laws.{NoneWhereExtends, KeptIsAccepted, RegrownHasTheOld};

/// Nothing breaks exactly where the one problem extends the other.
pub fn none_where_extends()
    ensures { NoneWhereExtends }
{}

/// An accepted conflict, carried over, is accepted.
pub fn kept_is_accepted()
    ensures { KeptIsAccepted }
{}

/// What an old correction grows into has among the old groups just those of the correction.
pub fn regrown_has_the_old()
    ensures { RegrownHasTheOld }
{}
