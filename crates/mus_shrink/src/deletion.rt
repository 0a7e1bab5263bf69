//! Shrinking by deletion.
//!
//! The groups of the set are tried one after the other: is the rest still unsatisfiable without this one? Where it is,
//! the oracle's core of the rest takes the set's place, so that one answer can leave out many groups. Where it is not,
//! the assignment shows that the group is critical, and it is the group's witness for good: the set only shrinks, and
//! each unsatisfiable part of it holds all its critical groups. When each group of the set was tried or is gone, those
//! that are left are all critical (deletion with clause set refinement, Belov, Lynce and Marques-Silva 2012).
ghost use Rattle.std.specs.Prelude.{◌≡◌, ◌+◌, ◌≤◌, [], ◌∷◌, Some, IfOk, length};
ghost use Rattle.gm_base.specs.Sets.{IsSubset, IsGroupSet, all_groups};
ghost use Rattle.evidence_rec.specs.Asking.{IsSpent, IsHonestOver};
ghost use Rattle.mus_shrink.specs.Candidate.{IsCandidate, TellsTried};
ghost use Rattle.mus_shrink.specs.Shrunk.{TellsShrunk};

use crate::candidate::Candidate;
use crate::order::{in_order, parted};
use crate::shrunk::Shrunk;
use evidence_rec::{Asked, Oracle, Record, Witnesses};
use gm_base::{GroupSet, Problem, Purse};
use std::alloc::{AllocError, Global};
use std::mem;

/// Shrinks the set of the oracle's last answer, which was that it is unsatisfiable, to a minimal conflict.
///
/// It asks at most one question for each group of the set.
pub fn shrink<O: Oracle>(
    alloc: Global,
    oracle: &mut O,
    problem: &Problem,
    set: &GroupSet,
    turn: u64,
    purse: &mut Purse,
) -> Result<Shrunk, AllocError>
    requires problem { problem.now ≡ (O.state oracle.old).problem }
    requires refuted { (O.state oracle.old).refuted ≡ Some set.now }
    requires within { IsSubset set.now (all_groups problem.now.groups) }
    ensures shrunk { IfOk result (λ shrunk. TellsShrunk (O.state oracle.new) set.now purse.new.left shrunk) }
    ensures asks { (O.state oracle.new).asks ≤ (O.state oracle.old).asks + length set.now }
    ensures honest { IsHonestOver problem.now (O.state oracle.old).log → IsHonestOver problem.now (O.state oracle.new).log }
    ensures spent { IsSpent (O.state oracle.old) (O.state oracle.new) purse.old.left purse.new.left }
{
    let none = GroupSet::new(alloc);
    shrink_keeping(alloc, oracle, problem, set, &none, turn, purse)
}

/// Shrinks as `shrink` does, and tries these groups last, so that it keeps of them what it can.
pub fn shrink_keeping<O: Oracle>(
    alloc: Global,
    oracle: &mut O,
    problem: &Problem,
    set: &GroupSet,
    last: &GroupSet,
    turn: u64,
    purse: &mut Purse,
) -> Result<Shrunk, AllocError>
    requires problem { problem.now ≡ (O.state oracle.old).problem }
    requires refuted { (O.state oracle.old).refuted ≡ Some set.now }
    requires within { IsSubset set.now (all_groups problem.now.groups) }
    ensures shrunk { IfOk result (λ shrunk. TellsShrunk (O.state oracle.new) set.now purse.new.left shrunk) }
    ensures asks { (O.state oracle.new).asks ≤ (O.state oracle.old).asks + length set.now }
    ensures honest { IsHonestOver problem.now (O.state oracle.old).log → IsHonestOver problem.now (O.state oracle.new).log }
    ensures spent { IsSpent (O.state oracle.old) (O.state oracle.new) purse.old.left purse.new.left }
{
    let _groups = problem.groups(); // The problem is well-formed.
    let parts = parted(alloc, set, last)?;
    let mut candidate = Candidate {
        set: set.copy(alloc)?,
        proof: oracle.proof(alloc)?,
        witnesses: Witnesses::new(alloc),
    };
    if let Some(asked) = try_groups(
        alloc,
        oracle,
        &mut candidate,
        parts.others.as_slice(),
        turn,
        purse,
    )? {
        return Ok(Shrunk::Dry(asked));
    }
    // What was critical stays so, and its witnesses serve.
    let others = mem::replace(&mut candidate.witnesses, Witnesses::new(alloc));
    if let Some(asked) = try_groups(
        alloc,
        oracle,
        &mut candidate,
        parts.last.as_slice(),
        turn,
        purse,
    )? {
        return Ok(Shrunk::Dry(asked));
    }
    let Candidate {
        set: left,
        proof,
        witnesses: lasts,
    } = candidate;
    let witnesses = in_order(alloc, &left, last, others, lasts)?;
    Ok(Shrunk::Done(Record::Conflict {
        set: left,
        proof,
        witnesses,
    }))
}

/// Tries these groups one after the other, and gives the set of the last question where the purse is empty.
fn try_groups<O: Oracle>(
    alloc: Global,
    oracle: &mut O,
    candidate: &mut Candidate,
    groups: &[u32],
    turn: u64,
    purse: &mut Purse,
) -> Result<Option<GroupSet>, AllocError>
    requires candidate { IsCandidate (O.state oracle.old).problem candidate.old.set [] candidate.old }
    requires within { IsSubset candidate.old.set (all_groups (O.state oracle.old).problem.groups) }
    ensures tried { IfOk result (λ dry. TellsTried (O.state oracle.new) candidate.old groups.now candidate.new purse.new.left dry) }
    ensures asks { (O.state oracle.new).asks ≤ (O.state oracle.old).asks + length groups.now }
    ensures honest { IsHonestOver (O.state oracle.old).problem (O.state oracle.old).log → IsHonestOver (O.state oracle.new).problem (O.state oracle.new).log }
    ensures spent { IsSpent (O.state oracle.old) (O.state oracle.new) purse.old.left purse.new.left }
{
    for g in groups {
        if let Some(asked) = try_group(alloc, oracle, candidate, *g, turn, purse)? {
            return Ok(Some(asked));
        }
    }
    Ok(None)
}

/// Asks about the candidate without a group, where it has it, and gives the set asked where the purse is empty.
fn try_group<O: Oracle>(
    alloc: Global,
    oracle: &mut O,
    candidate: &mut Candidate,
    g: u32,
    turn: u64,
    purse: &mut Purse,
) -> Result<Option<GroupSet>, AllocError>
    requires is_set { IsGroupSet candidate.old.set }
    requires within { IsSubset candidate.old.set (all_groups (O.state oracle.old).problem.groups) }
    ensures tried { IfOk result (λ dry. TellsTried (O.state oracle.new) candidate.old (g ∷ []) candidate.new purse.new.left dry) }
    ensures asks { (O.state oracle.new).asks ≤ (O.state oracle.old).asks + 1 }
    ensures honest { IsHonestOver (O.state oracle.old).problem (O.state oracle.old).log → IsHonestOver (O.state oracle.new).problem (O.state oracle.new).log }
    ensures spent { IsSpent (O.state oracle.old) (O.state oracle.new) purse.old.left purse.new.left }
{
    if !candidate.set.contains(g) {
        return Ok(None);
    }
    match oracle.ask_without(alloc, &candidate.set, g, turn, purse)? {
        Asked::Sat(witness) => {
            candidate.witnesses.push(witness)?;
            Ok(None) // The group is critical.
        }
        Asked::Unsat(core) => {
            // The oracle derives its last answer alone, so the core's proof is taken before the next question.
            let proof = oracle.proof(alloc)?;
            candidate.proof = proof;
            candidate.set = core;
            Ok(None)
        }
        Asked::Dry => {
            let rest = candidate.set.without(alloc, g)?;
            Ok(Some(rest))
        }
    }
}
