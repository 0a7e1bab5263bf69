//! A text that is ready to be written.
ghost use Rattle.std.specs.Prelude.{◌≡◌, ◌+◌, ◌^◌, ◌<◌, ◌≤◌, ◌++◌, IfOk, length, drop, vec_len, vec_capacity};
ghost use Rattle.disk_frames.specs.Frames.{length_bytes, piece_of, framed};

use std::alloc::{AllocError, Global};
use std::marker::Model;

/// A text with its length in front of it and a closed gate behind it, so that writing it is one device call and takes no
/// memory. Contracts see the text.
#[derive(Debug, Drop)]
pub struct FramedText {
    bytes: Vec<u8>,
}

impl Model for FramedText {
    ghost use Rattle.std.specs.Prelude.{List, ℕ, ◌≡◌};
    ghost use Rattle.disk_frames.specs.Frames.{piece_of, framed};

    ghost Value = { List ℕ };

    ghost view = { λ t. framed t.bytes.items };

    ghost invariant = { λ t. t.bytes.items ≡ piece_of (framed t.bytes.items) };
}

impl FramedText {
    /// Makes a copy of the text, in one buffer of 9 bytes more.
    pub fn new(alloc: Global, text: &[u8]) -> Result<Self, AllocError>
        ensures { IfOk result (λ framed. framed ≡ text.now) }
    {
        let mut bytes = Vec::new(alloc);
        bytes.extend_from_slice(&(text.len() as u64).to_be_bytes())?;
        bytes.extend_from_slice(text)?;
        bytes.push(0)?;
        Ok(FramedText { bytes })
    }

    /// Makes one of a buffer that has 8 bytes in front of the text and room for one behind it. It takes no memory.
    pub fn from_buffer(mut buffer: Vec<u8>) -> Self
        requires front { 8 ≤ vec_len buffer }
        requires room { vec_len buffer + 1 ≤ vec_capacity buffer }
        ensures text { result ≡ drop 8 buffer.items }
        ensures small { length result < 2 ^ 64 }
    {
        let size = buffer.len() as u64 - 8;
        put_length(buffer.as_mut_slice(), size);
        buffer.push_reserved(0);
        FramedText { bytes: buffer }
    }

    pub fn text(&self) -> &[u8]
        ensures { result.now ≡ self.now }
    {
        text_of(self.bytes.as_slice())
    }

    /// What is to be written behind the ending gate.
    pub(crate) fn piece(&self) -> &[u8]
        ensures { result.now ≡ piece_of self.now }
    {
        self.bytes.as_slice()
    }

    pub(crate) fn len(&self) -> u64
        ensures { result ≡ length self.now }
    {
        self.bytes.len() as u64 - 9
    }
}

// Puts the length over the first 8 bytes.
fn put_length(bytes: &mut [u8], size: u64)
    requires { 8 ≤ length bytes.old }
    ensures { bytes.new ≡ length_bytes size ++ drop 8 bytes.old }
{
    bytes[..8].copy_from_slice(&size.to_be_bytes());
}

fn text_of(piece: &[u8]) -> &[u8]
    requires { 9 ≤ length piece.now }
    ensures { result.now ≡ framed piece.now }
{
    &piece[8..piece.len() - 1]
}
