//! Growing by addition.
//!
//! The groups outside of the given set are settled one after the other, ascending. One whose clauses the assignment at hand
//! makes true already is put into the set at hand: no question is asked for it. For any other the oracle is asked whether
//! it goes together with the set at hand. Where it does, it is put into it, and the answer is the assignment at hand from
//! then on, which may make later groups true. Where it does not, it stays out for good, since more groups keep
//! unsatisfiability, and the oracle's proof of that serves each larger set. At the end those left out are a minimal
//! correction (Liffiton and Sakallah 2008; Marques-Silva, Heras, Janota, Previti and Belov 2013).
//!
//! A seed is often one of thousands of groups, and leaves out a few. So a question names the set at hand and the group, and
//! what is done for each group does not walk the set, but where it grows.
ghost use Rattle.std.specs.Prelude.{◌≡◌, ◌+◌, ◌<◌, ◌≤◌, true, IfOk, OnOk, length};
ghost use Rattle.gm_base.specs.Sets.{IsSubset, all_groups, complement, with_group};
ghost use Rattle.gm_base.specs.Evidence.{is_witness};
ghost use Rattle.evidence_rec.specs.Asking.{IsSpent, IsHonestOver};
ghost use Rattle.mss_grow.specs.Growth.{TellsSettled};
ghost use Rattle.mss_grow.specs.Grown.{TellsGrown};

use crate::grown::Grown;
use crate::growth::Growth;
use evidence_rec::{Asked, Oracle, Proofs, Record, Refutation};
use gm_base::{Assign, GroupSet, Problem, Purse};
use std::alloc::{AllocError, Global};

/// Grows a set that the assignment satisfies to a maximal one, whose complement is a minimal correction.
///
/// It asks at most one question for each group outside the set.
pub fn grow<O: Oracle>(
    alloc: Global,
    oracle: &mut O,
    problem: &Problem,
    set: &GroupSet,
    assign: &Assign,
    turn: u64,
    purse: &mut Purse,
) -> Result<Grown, AllocError>
    requires problem { problem.now ≡ (O.state oracle.old).problem }
    requires within { IsSubset set.now (all_groups problem.now.groups) }
    requires satisfied { is_witness problem.now set.now assign.now ≡ true }
    ensures grown { IfOk result (λ grown. TellsGrown (O.state oracle.new) set.now purse.new.left grown) }
    ensures asks { (O.state oracle.new).asks ≤ (O.state oracle.old).asks + length (complement problem.now.groups set.now) }
    ensures honest { IsHonestOver problem.now (O.state oracle.old).log → IsHonestOver problem.now (O.state oracle.new).log }
    ensures spent { IsSpent (O.state oracle.old) (O.state oracle.new) purse.old.left purse.new.left }
{
    let out = set.complement(alloc, problem.groups())?;
    let mut growth = Growth {
        set: set.copy(alloc)?,
        witness: assign.copy()?,
        proofs: Proofs::new(alloc),
    };
    for g in out.as_slice() {
        if let Some(asked) = settle(alloc, oracle, problem, &mut growth, *g, turn, purse)? {
            return Ok(Grown::Dry(asked));
        }
    }
    Ok(Grown::Done(Record::Correction {
        set: growth.set.complement(alloc, problem.groups())?,
        witness: growth.witness,
        proofs: growth.proofs,
    }))
}

/// Settles a group that is not in the set at hand, and gives the set asked where the purse is empty.
fn settle<O: Oracle>(
    alloc: Global,
    oracle: &mut O,
    problem: &Problem,
    growth: &mut Growth,
    g: u32,
    turn: u64,
    purse: &mut Purse,
) -> Result<Option<GroupSet>, AllocError>
    requires problem { problem.now ≡ (O.state oracle.old).problem }
    requires within { IsSubset (with_group growth.old.set g) (all_groups problem.now.groups) }
    requires satisfied { is_witness problem.now growth.old.set growth.old.witness ≡ true }
    ensures settled { IfOk result (λ dry. TellsSettled (O.state oracle.new) growth.old g growth.new purse.new.left dry) }
    ensures asks { (O.state oracle.new).asks ≤ (O.state oracle.old).asks + 1 }
    ensures honest { IsHonestOver (O.state oracle.old).problem (O.state oracle.old).log → IsHonestOver (O.state oracle.new).problem (O.state oracle.new).log }
    ensures spent { IsSpent (O.state oracle.old) (O.state oracle.new) purse.old.left purse.new.left }
{
    if problem.group_holds(g, &growth.witness) {
        put_in(alloc, growth, g)?;
        return Ok(None);
    }
    match oracle.ask_with(alloc, &growth.set, g, turn, purse)? {
        Asked::Sat(witness) => {
            growth.witness = witness;
            put_in(alloc, growth, g)?;
            Ok(None) // It goes together with the set.
        }
        Asked::Unsat(_core) => {
            // The oracle derives its last answer alone, so the proof is taken before the next question.
            let proof = oracle.proof(alloc)?;
            growth.proofs.push(Refutation::Steps(proof))?;
            Ok(None)
        }
        Asked::Dry => {
            let asked = growth.set.with(alloc, g)?;
            let _groups = asked.as_slice(); // They ascend.
            Ok(Some(asked))
        }
    }
}

/// Puts a group into the set at hand.
fn put_in(alloc: Global, growth: &mut Growth, g: u32) -> Result<(), AllocError>
    requires { 0 < g }
    ensures { OnOk result (growth.new ≡ record growth.old { set = with_group growth.old.set g }) }
{
    growth.set = growth.set.with(alloc, g)?;
    Ok(())
}
