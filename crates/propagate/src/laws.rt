//! A law over the definitions alone. It is the contract of a function that has no code.
ghost use Rattle.propagate.specs.Laws.{BackKeeps};

/// Where nothing is parked, going back by `Trail::back_to` keeps what propagation needs.
pub fn back_keeps()
    ensures { BackKeeps }
{}
