//! The clauses of a counter, all of them or one by its place.
//!
//! They come row by row, and in a row column by column. A row has columns up to its own number, since no more groups are
//! there to be counted, and up to one above the bound, since nobody asks for more. So where a clause stands can be
//! computed, and whoever wants one makes no other.
ghost use Rattle.std.specs.Prelude.{◌≡◌, ◌+◌, ◌*◌, ◌<◌, ◌≤◌, ◌^◌, ◌∷◌, ◌++◌, [], min, Some, None, neg_ℤ, nat_lt, if◌then◌else◌, length, slice_get, IfOk, OnOk};
ghost use Rattle.size_counter.specs.Counter.{counted, at_least, counter_row, counter, IsOrder};
ghost use Rattle.size_counter.specs.Counter.{counter_vars as vars_of};

use crate::cells::{at_least, carried, counted_lit, raised};
use crate::place::place_of;
use gm_base::{Kind, Lit, Lits};
use sat_base::Row;
use std::alloc::{AllocError, Global};

/// How many variables the groups and so many rows have. `None` if a literal can't name them all: they are more than
/// 2,147,483,647.
pub fn counter_vars(groups: u32, bound: u32, rows: u32) -> Option<u32>
    ensures { result ≡ (if nat_lt (vars_of groups bound rows) (2 ^ 31) then Some (vars_of groups bound rows) else None) }
{
    let vars = groups as u128 + (bound as u128 + 1) * rows as u128;
    if vars < 1 << 31 {
        Some(vars as u32)
    } else {
        None
    }
}

/// How many clauses the counter of so many rows has.
pub fn counter_len(bound: u32, rows: u32) -> u64
    ensures { result + min rows (bound + 1) * min rows (bound + 1) ≡ 2 * rows * min rows (bound + 1) }
{
    let rows = rows as u64;
    let wide = rows.min(bound as u64 + 1);
    wide * (2 * rows - wide)
}

/// "Not more than the bound are counted", which nothing has to say if there are no more rows.
pub fn limit_lit(groups: u32, bound: u32, rows: u32) -> Option<Lit>
    requires small { vars_of groups bound rows < 2 ^ 31 }
    ensures { result ≡ (if nat_lt bound rows then Some (neg_ℤ (at_least groups bound rows (bound + 1))) else None) }
{
    if bound < rows {
        Some(at_least(groups, bound, rows, bound + 1).negated())
    } else {
        None
    }
}

/// Adds the row of one group more, behind so many rows.
pub fn add_row(
    alloc: Global,
    groups: u32,
    bound: u32,
    kind: Kind,
    rows: u32,
    group: u32,
    clauses: &mut Row<Lits>,
) -> Result<(), AllocError>
    requires small { vars_of groups bound (rows + 1) < 2 ^ 31 }
    requires low { 0 < group }
    requires high { group ≤ groups }
    ensures { OnOk result (clauses.new ≡ clauses.old ++ counter_row groups bound rows (counted kind group)) }
{
    let lit = counted_lit(kind, group);
    for columns in 0..rows.min(bound) + 1 {
        if columns < rows {
            clauses.push(carried(alloc, groups, bound, rows, columns)?)?;
        }
        clauses.push(raised(alloc, groups, bound, rows, columns, lit)?)?;
    }
    Ok(())
}

/// The clause at a place, from 0, of the counter of groups in an order.
pub fn counter_clause(
    alloc: Global,
    groups: u32,
    bound: u32,
    kind: Kind,
    order: &[u32],
    at: u64,
) -> Result<Lits, AllocError>
    requires small { vars_of groups bound (length order.now) < 2 ^ 31 }
    requires order { IsOrder groups order.now }
    requires within { at < length (counter groups bound kind order.now) }
    ensures { IfOk result (λ clause. slice_get (counter groups bound kind order.now) at ≡ Some clause) }
{
    let place = place_of(bound, order.len() as u32, at);
    if place.carries {
        carried(alloc, groups, bound, place.rows, place.columns)
    } else {
        let lit = counted_lit(kind, order[place.rows as usize]);
        raised(alloc, groups, bound, place.rows, place.columns, lit)
    }
}
