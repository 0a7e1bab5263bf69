//! Where a clause of a counter stands.
//!
//! With w one above the bound, the row behind r rows has 2 r + 1 clauses if r is below w, and 2 w if not. So r * r clauses
//! stand before it as long as r is at most w, and the row of a clause is found by a root or by a division.
ghost use Rattle.std.specs.Prelude.{◌≡◌, ◌+◌, ◌*◌, ◌/◌, ◌%◌, ◌<◌, ◌≤◌, ◌^◌, ◌&&◌, ◌==◌, min, nat_lt};
ghost use Rattle.size_counter.specs.Places.{IsPlace};

/// A clause of a counter: behind so many rows and so many columns, the one by which what was counted stays counted, or the
/// one by which a group that is counted makes one more.
#[derive(Drop)]
pub(crate) struct Place {
    pub(crate) rows: u32,
    pub(crate) columns: u32,
    pub(crate) carries: bool,
}

/// The place of a clause in the counter of so many rows, by its number from 0.
pub(crate) fn place_of(bound: u32, rows: u32, at: u64) -> Place
    requires { at + min rows (bound + 1) * min rows (bound + 1) < 2 * rows * min rows (bound + 1) }
    ensures { IsPlace bound rows at result }
{
    let wide = (rows as u64).min(bound as u64 + 1);
    if at < wide * wide {
        let row = at.isqrt();
        in_row(row, at - row * row)
    } else {
        let behind = at - wide * wide;
        in_row(wide + behind / (2 * wide), behind % (2 * wide))
    }
}

// The place in the row behind so many rows.
fn in_row(rows: u64, at: u64) -> Place
    requires rows { rows < 2 ^ 32 }
    requires at { at ≤ 2 * rows }
    ensures rows { result.rows ≡ rows }
    ensures columns { result.columns ≡ at / 2 }
    ensures carries { result.carries ≡ ((at % 2 == 0) && nat_lt (at / 2) rows) }
{
    let columns = at / 2;
    Place {
        rows: rows as u32,
        columns: columns as u32,
        carries: at % 2 == 0 && columns < rows,
    }
}
