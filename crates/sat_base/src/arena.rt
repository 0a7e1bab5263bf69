//! Adding to lists whose lengths fit 32 bits. What does not fit is answered as want of memory.
ghost use Rattle.std.specs.Prelude.{◌≡◌, ◌+◌, ◌++◌, IfOk, OnOk, OnErr};

use crate::hints::HintList;
use crate::lit::Lit;
use std::alloc::AllocError;

/// Where a list of this length ends once so many more were added.
pub fn end_of(len: usize, more: usize) -> Result<u32, AllocError>
    ensures { IfOk result (λ end. end ≡ len + more) }
{
    let Some(end) = len.checked_add(more) else {
        return Err(AllocError);
    };
    let Ok(end) = u32::try_from(end) else {
        return Err(AllocError);
    };
    Ok(end)
}

/// Adds literals and hints at the ends of their lists, all or none.
pub(crate) fn push_both(
    lits: &mut Vec<Lit>,
    hints: &mut HintList,
    more_lits: &[Lit],
    more_hints: &[u64],
) -> Result<(), AllocError>
    ensures lits { OnOk result (lits.new.items ≡ lits.old.items ++ more_lits.now) }
    ensures hints { OnOk result (hints.new ≡ hints.old ++ more_hints.now) }
    ensures err_lits { OnErr result (lits.new.items ≡ lits.old.items) }
    ensures err_hints { OnErr result (hints.new ≡ hints.old) }
{
    lits.reserve(more_lits.len())?;
    hints.push_all(more_hints)?;
    lits.extend_from_slice(more_lits)
}
