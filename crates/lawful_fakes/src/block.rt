//! Blocks.
ghost use Rattle.std.specs.Prelude.{◌≡◌, ◌<◌, ◌^◌, not, IfOk, IfSome, map};
ghost use Rattle.std.specs.List.{list_all};
ghost use Rattle.gm_base.specs.Sets.{has, IsSubset, all_groups};
ghost use Rattle.gm_base.specs.Explored.{Found, explores, is_explored};
ghost use Rattle.sat_base.specs.Members.{In};
ghost use Rattle.lawful_fakes.specs.Script.{found_in, clause_in};

use evidence_rec::block_lits;
use gm_base::{Clause, Clauses, GroupSet, Lits, Problem, Side, clause_fits};
use std::alloc::{AllocError, Global};

/// A set that was found, and the side on which it takes sets out.
#[derive(Drop)]
pub struct Block {
    pub set: GroupSet,
    pub side: Side,
}

/// Whether the block takes out a set.
fn takes_out(block: &Block, set: &GroupSet) -> bool
    ensures { result ≡ explores (found_in block.now) set.now }
{
    match block.side {
        Side::Up => has_all(set, &block.set),
        Side::Down => has_none(set, &block.set),
    }
}

fn has_all(set: &GroupSet, wanted: &GroupSet) -> bool
    ensures { result ≡ list_all (has set.now) wanted.now }
{
    for g in wanted.as_slice() {
        if !set.contains(*g) {
            return false;
        }
    }
    true
}

fn has_none(set: &GroupSet, unwanted: &GroupSet) -> bool
    ensures { result ≡ list_all (λ g. not (has set.now g)) unwanted.now }
{
    for g in unwanted.as_slice() {
        if set.contains(*g) {
            return false;
        }
    }
    true
}

/// Whether one of the blocks takes out a set.
pub fn any_takes_out(blocks: &[Block], set: &GroupSet) -> bool
    ensures { result ≡ is_explored (map found_in blocks.now) set.now }
{
    for block in blocks {
        if takes_out(block, set) {
            return true;
        }
    }
    false
}

/// The problem that asks for a set which no block takes out: its variables are the groups, its clauses those of the blocks.
pub fn map_problem(
    alloc: Global,
    groups: u32,
    blocks: &[Block],
) -> Result<Option<Problem>, AllocError>
    requires small { groups < 2 ^ 31 }
    requires within { (f : Found) → In f (map found_in blocks.now) → IsSubset f.set (all_groups groups) }
    ensures { IfOk result (λ made. IfSome made (λ p. p ≡ record { vars = groups; groups = 0; clauses = map clause_in blocks.now })) }
{
    let mut clauses = Clauses::new(alloc);
    for block in blocks {
        let lits = Lits::from_vec(block_lits(alloc, &block.set, block.side)?);
        let clause = Clause { group: 0, lits };
        if !clause_fits(groups, 0, &clause) {
            return Ok(None);
        }
        clauses.push(clause)?;
    }
    Ok(Some(Problem::new(alloc, groups, 0, clauses)?))
}
