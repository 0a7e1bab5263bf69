//! Block clauses.
//!
//! In the map, group g is variable g. The block of a conflict says that some group of it is out, that of a correction that some group of it is in. So a clause
//! has one literal for each group of the set, and all of them have one sign.
ghost use Rattle.std.specs.Prelude.{◌≡◌, ℕ, ◌<◌, ◌^◌, true, IfOk};
ghost use Rattle.gm_base.specs.Sets.{has};
ghost use Rattle.gm_base.specs.Explored.{block_of, block_clause};
ghost use Rattle.evidence_rec.specs.Blocks.{block_lit};

use gm_base::{GroupSet, Lit, Side};
use std::alloc::{AllocError, Global};

// What the block says of one group: of a conflict's "it is out", of a correction's "it is in".
fn literal_of(group: u32, side: Side) -> Lit
    requires not_background { 0 < group }
    requires in_range { group < 2 ^ 31 }
    ensures { result ≡ block_lit side group }
{
    let group_in = Lit::new(group as i32);
    match side {
        Side::Up => group_in.negated(),
        Side::Down => group_in,
    }
}

/// The clause of a block, with the groups in the order of the set, in just as much memory as it needs.
pub fn block_lits(alloc: Global, set: &GroupSet, side: Side) -> Result<Vec<Lit>, AllocError>
    requires { (g : ℕ) → has set.now g ≡ true → g < 2 ^ 31 }
    ensures { IfOk result (λ lits. lits.items ≡ block_clause (block_of side set.now)) }
{
    let mut lits = Vec::with_capacity(alloc, set.len())?;
    for group in set.as_slice() {
        lits.push(literal_of(*group, side))?;
    }
    Ok(lits)
}
