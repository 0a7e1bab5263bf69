//! The line that a drilling writes.
ghost use Rattle.std.specs.Prelude.{◌≡◌, IfOk};
ghost use Rattle.gm_io.specs.Counts.{drill_line};

use crate::line_parts::put_counted;
use std::alloc::{AllocError, Global};

/// How many groups there are, how many conflicts and how many corrections.
#[tactic(auto, unfolding(crate::specs::Counts::drill_line))]
pub fn line_of_counts(
    alloc: Global,
    groups: u32,
    conflicts: usize,
    corrections: usize,
) -> Result<Vec<u8>, AllocError>
    ensures { IfOk result (λ line. line.items ≡ drill_line groups conflicts corrections) }
{
    let mut line = Vec::new(alloc);
    put_counted(&mut line, b"drill ", u64::from(groups))?;
    put_counted(&mut line, b" ", conflicts as u64)?;
    put_counted(&mut line, b" ", corrections as u64)?;
    line.extend_from_slice(b"\n")?;
    Ok(line)
}
