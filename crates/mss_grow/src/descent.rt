//! Growing from above.
//!
//! A seed of a few groups leaves out nearly all, and growing by addition would settle each of these. From above the oracle is
//! asked about all groups first. As long as they are unsatisfiable, one group of the core is dropped that is not in the
//! seed. There is one, since the seed is satisfiable and the core is not. So the set at hand keeps the seed and loses a
//! group with each core, and it is satisfiable in the end. Then the dropped groups are settled singly, by addition: one may
//! fit again, where another group of its core was dropped later. Cores guide the search for corrections likewise in
//! Narodytska, Bjørner, Marinescu and Sagiv 2018.
//!
//! So it takes some questions for each conflict on the way, and not one for each group outside. Each of them is about another
//! set of nearly all groups, which the oracle reads whole. It is made anew for each, and nothing else that is done for a
//! question grows with all groups.
ghost use Rattle.std.specs.Prelude.{◌≡◌, ◌+◌, ◌*◌, ◌≤◌, true, false, IfOk, length};
ghost use Rattle.gm_base.specs.Sets.{IsSubset, all_groups, complement, has};
ghost use Rattle.gm_base.specs.Problem.{Sat};
ghost use Rattle.evidence_rec.specs.Asking.{IsSpent, IsHonestOver};
ghost use Rattle.mss_grow.specs.Grown.{TellsGrown};

use crate::addition::grow;
use crate::grown::Grown;
use evidence_rec::{Asked, Oracle};
use gm_base::{GroupSet, Problem, Purse};
use std::alloc::{AllocError, Global};

/// Grows a satisfiable set of few groups to a maximal one, whose complement is a minimal correction.
///
/// It asks at most two questions for each group outside the set, and one more.
pub fn grow_down<O: Oracle>(
    alloc: Global,
    oracle: &mut O,
    problem: &Problem,
    set: &GroupSet,
    turn: u64,
    purse: &mut Purse,
) -> Result<Grown, AllocError>
    requires problem { problem.now ≡ (O.state oracle.old).problem }
    requires within { IsSubset set.now (all_groups problem.now.groups) }
    requires satisfiable { Sat problem.now set.now }
    ensures grown { IfOk result (λ grown. TellsGrown (O.state oracle.new) set.now purse.new.left grown) }
    ensures asks { (O.state oracle.new).asks ≤ (O.state oracle.old).asks + 2 * length (complement problem.now.groups set.now) + 1 }
    ensures honest { IsHonestOver problem.now (O.state oracle.old).log → IsHonestOver problem.now (O.state oracle.new).log }
    ensures spent { IsSpent (O.state oracle.old) (O.state oracle.new) purse.old.left purse.new.left }
{
    let mut large = GroupSet::new(alloc).complement(alloc, problem.groups())?;
    'cores: loop {
        let _groups = large.as_slice(); // They ascend.
        match oracle.ask(alloc, &large, turn, purse)? {
            Asked::Sat(assign) => {
                return grow(alloc, oracle, problem, &large, &assign, turn, purse);
            }
            Asked::Unsat(core) => {
                let g = one_outside(&core, set);
                large = large.without(alloc, g)?;
            }
            Asked::Dry => return Ok(Grown::Dry(large)),
        }
    }
}

/// The first group of the core that is not in the set.
fn one_outside(core: &GroupSet, set: &GroupSet) -> u32
    requires { ¬ IsSubset core.now set.now }
    ensures in_core { has core.now result ≡ true }
    ensures outside { has set.now result ≡ false }
{
    for g in core.as_slice() {
        if !set.contains(*g) {
            return *g;
        }
    }
    unreachable!()
}
