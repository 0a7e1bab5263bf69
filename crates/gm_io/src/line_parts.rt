//! The parts of lines that tell numbers.
ghost use Rattle.std.specs.Prelude.{◌≡◌, ◌++◌, OnOk};
ghost use Rattle.std.specs.Fmt.{decimal};

use std::alloc::AllocError;
use token_text::put_number;

/// Appends a text, and a number behind it.
pub fn put_counted(line: &mut Vec<u8>, text: &[u8], number: u64) -> Result<(), AllocError>
    ensures { OnOk result (line.new.items ≡ line.old.items ++ text.now ++ decimal number) }
{
    line.extend_from_slice(text)?;
    put_number(line, i128::from(number))
}
