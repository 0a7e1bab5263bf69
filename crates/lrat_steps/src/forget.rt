//! When a learnt clause may be forgotten.
//!
//! A clause that was learnt is worth keeping while it helps to find conflicts. Of those that are live some may go once
//! they are many: more than 2,000 and a quarter of all that were learnt. So at least that many stay to be found by, and
//! searches go on longer than each time before between two forgettings.
ghost use Rattle.std.specs.Prelude.{◌↔◌, IsTrue};
ghost use Rattle.lrat_steps.specs.Forgetting.{MayForget};

/// Whether one may be forgotten where so many learnt clauses are live of so many that were learnt.
pub fn may_forget(live: u64, learned: u64) -> bool
    ensures { IsTrue result ↔ MayForget live learned }
{
    live > 2000 + learned / 4
}
