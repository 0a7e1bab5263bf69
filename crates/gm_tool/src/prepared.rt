//! What is ready before a command that enumerates writes its text.

use gm_io::Enumerated;

/// A command that enumerates, before its text is written.
#[derive(Drop)]
pub struct Prepared {
    pub line: Vec<u8>,
    pub text: Vec<u8>,
    pub left: Enumerated,
}
