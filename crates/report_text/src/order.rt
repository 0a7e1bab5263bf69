//! Sets in order.
ghost use Rattle.std.specs.Prelude.{IfOk};
ghost use Rattle.gm_base.specs.Lent.{lists_of};
ghost use Rattle.report_text.specs.Sorted.{IsSortedOf};

use gm_base::{GroupSet, Sets};
use std::alloc::{AllocError, Global};

/// The sets in the order of their lists of group numbers, a prefix first.
pub fn in_order<'a>(alloc: Global, sets: &Sets<'a>) -> Result<Vec<&'a GroupSet>, AllocError>
    ensures { IfOk result (λ order. IsSortedOf sets.now (lists_of order.items)) }
{
    let mut order = Vec::from_slice(alloc, sets.as_slice())?;
    order.sort()?;
    Ok(order)
}
