//! The clauses of one cell: what was counted up to the row before stays counted, and a group that is counted makes one more.
ghost use Rattle.std.specs.Prelude.{◌≡◌, ◌+◌, ◌<◌, ◌≤◌, ◌^◌, ◌∷◌, [], neg_ℤ, IfOk};
ghost use Rattle.size_counter.specs.Counter.{counted, at_least, counter_vars, raised};

use gm_base::{Kind, Lit, Lits};
use std::alloc::{AllocError, Global};

/// What is counted of a group.
pub(crate) fn counted_lit(kind: Kind, group: u32) -> Lit
    requires not_background { 0 < group }
    requires in_range { group < 2 ^ 31 }
    ensures { result ≡ counted kind group }
{
    let group_in = Lit::new(group as i32);
    match kind {
        Kind::Conflict => group_in,
        Kind::Correction => group_in.negated(),
    }
}

/// The variable of a row and a column, both from 1 on.
pub(crate) fn at_least(groups: u32, bound: u32, row: u32, column: u32) -> Lit
    requires row { 0 < row }
    requires low { 0 < column }
    requires high { column ≤ bound + 1 }
    requires small { counter_vars groups bound row < 2 ^ 31 }
    ensures { result ≡ at_least groups bound row column }
{
    Lit::new((groups + (bound + 1) * (row - 1) + column) as i32)
}

/// The clause by which what was counted stays counted.
pub(crate) fn carried(
    alloc: Global,
    groups: u32,
    bound: u32,
    rows: u32,
    columns: u32,
) -> Result<Lits, AllocError>
    requires small { counter_vars groups bound (rows + 1) < 2 ^ 31 }
    requires under { columns < rows }
    requires within { columns ≤ bound }
    ensures { IfOk result (λ clause. clause ≡ neg_ℤ (at_least groups bound rows (columns + 1)) ∷ at_least groups bound (rows + 1) (columns + 1) ∷ []) }
{
    let before = at_least(groups, bound, rows, columns + 1);
    let now = at_least(groups, bound, rows + 1, columns + 1);
    Lits::from_slice(alloc, &[before.negated(), now])
}

/// The clause by which a group that is counted makes one more.
pub(crate) fn raised(
    alloc: Global,
    groups: u32,
    bound: u32,
    rows: u32,
    columns: u32,
    lit: Lit,
) -> Result<Lits, AllocError>
    requires small { counter_vars groups bound (rows + 1) < 2 ^ 31 }
    requires under { columns ≤ rows }
    requires within { columns ≤ bound }
    ensures { IfOk result (λ clause. clause ≡ raised groups bound rows columns lit) }
{
    let now = at_least(groups, bound, rows + 1, columns + 1);
    if columns == 0 {
        return Lits::from_slice(alloc, &[lit.negated(), now]);
    }
    let before = at_least(groups, bound, rows, columns);
    Lits::from_slice(alloc, &[lit.negated(), before.negated(), now])
}
