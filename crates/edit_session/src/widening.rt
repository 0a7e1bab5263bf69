//! New groups that an old correction takes in together.
//!
//! Growing asks one question for each group outside its start. A longer problem has its new groups outside each start, and
//! there are as many starts as old corrections. Mostly all new groups go together with what an old correction leaves, and then
//! one question says so for all of them. Where they don't, the answer names some of them: these are taken out, and the others
//! are tried together again. What isn't put in here, growing settles, so nothing hangs on what is taken out.
ghost use Rattle.std.specs.Prelude.{◌≡◌, true, length, IfOk};
ghost use Rattle.gm_base.specs.Sets.{IsSubset, all_groups};
ghost use Rattle.gm_base.specs.Evidence.{is_witness};
ghost use Rattle.evidence_rec.specs.Asking.{IsSpent, IsHonestOver};
ghost use Rattle.edit_session.specs.Opening.{without_new, TellsWidened};

use crate::corrections::Start;
use evidence_rec::{Asked, Oracle};
use gm_base::{Assign, GroupSet, Problem, Purse};
use std::alloc::{AllocError, Global};

/// How often new groups are tried together for one correction. Mostly one try does. One that fails takes out a group at least,
/// which growing asks about all the same: where many don't go together with the start, more tries cost more than they spare.
const MOST_TRIES: usize = 8;

/// What widening ended with.
#[derive(Drop)]
pub enum Widened {
    /// A start that has all groups of the given one.
    Start(Start),
    /// The oracle's purse is empty. This is the set that it was asked about last.
    Dry(GroupSet),
}

/// Puts new groups, those above this number, into a start: as many of a wider set's as are found to go together with it.
///
/// Where the start's assignment makes all new groups true but one at most, nothing is asked: growing asks that question itself.
pub fn widen<O: Oracle>(
    alloc: Global,
    oracle: &mut O,
    new: &Problem,
    old_groups: u32,
    start: Start,
    wider: GroupSet,
    purse: &mut Purse,
) -> Result<Widened, AllocError>
    requires problem { new.now ≡ (O.state oracle.old).problem }
    requires old_start { IsSubset start.set (all_groups old_groups) }
    requires within { IsSubset wider (all_groups new.now.groups) }
    requires wider { IsSubset start.set wider }
    requires satisfied { is_witness new.now start.set start.witness ≡ true }
    ensures widened { IfOk result (λ widened. TellsWidened (O.state oracle.new) start.set purse.new.left widened) }
    ensures honest { IsHonestOver new.now (O.state oracle.old).log → IsHonestOver new.now (O.state oracle.new).log }
    ensures spent { IsSpent (O.state oracle.old) (O.state oracle.new) purse.old.left purse.new.left }
{
    let mut together = wider;
    for _at in 0..MOST_TRIES {
        if !leaves_two(new, old_groups, &together, &start.witness) {
            return Ok(Widened::Start(start));
        }
        let _groups = together.as_slice(); // They ascend.
        match oracle.ask(alloc, &together, 0, purse)? {
            Asked::Sat(witness) => {
                return Ok(Widened::Start(Start {
                    set: together,
                    witness,
                }));
            }
            Asked::Unsat(core) => {
                together = without_new(alloc, &together, old_groups, &core)?;
            }
            Asked::Dry => return Ok(Widened::Dry(together)),
        }
    }
    Ok(Widened::Start(start))
}

// Whether the assignment leaves two of the new groups of a set that it does not make true. It settles what is asked, and
// nothing else: no clause speaks of it.
fn leaves_two(new: &Problem, old_groups: u32, set: &GroupSet, witness: &Assign) -> bool
    requires { length witness.now ≡ new.now.vars }
{
    let mut one = false;
    for i in old_groups..new.groups() {
        let g = i + 1;
        if set.contains(g) && !new.group_holds(g, witness) {
            if one {
                return true;
            }
            one = true;
        }
    }
    false
}

// A set without the new groups that a core has.
fn without_new(
    alloc: Global,
    set: &GroupSet,
    old_groups: u32,
    core: &GroupSet,
) -> Result<GroupSet, AllocError>
    ensures { IfOk result (λ rest. rest ≡ without_new old_groups core.now set.now) }
{
    let mut rest = GroupSet::new(alloc);
    for g in set.as_slice() {
        if *g <= old_groups || !core.contains(*g) {
            rest.push(*g)?;
        }
    }
    Ok(rest)
}
