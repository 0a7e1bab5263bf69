//! The lines of a record.
ghost use Rattle.std.specs.Prelude.{◌≡◌, ◌+◌, IfOk};

use std::alloc::AllocError;

/// The line so many behind this one, or want of memory where there is no number for it.
pub fn line_behind(line: u64, count: usize) -> Result<u64, AllocError>
    ensures { IfOk result (λ behind. behind ≡ line + count) }
{
    match line.checked_add(count as u64) {
        Some(behind) => Ok(behind),
        None => Err(AllocError),
    }
}
