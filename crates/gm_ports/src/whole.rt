//! A whole file, read in pieces, and a whole text, written in pieces.
//!
//! Each turn of the reading reads at least one byte or ends the reading, and never asks for more than one byte past the limit, so the
//! reading ends whatever the files answer. That one byte more is what tells a file that is too long from one that just
//! fits.
ghost use Rattle.std.specs.Prelude.{◌≡◌, ◌≤◌, ℕ, length, vec_len, IfOk, IfSome, OnOk, OnErr};
ghost use Rattle.gm_ports.specs.Faults.{Rose};
ghost use Rattle.gm_ports.specs.FilesState.{ReadingLeaves};
ghost use Rattle.gm_ports.specs.Reading.{SaysOfName, SaysOfText, IsWithin, ReadingHasCause};
ghost use Rattle.gm_ports.specs.Told.{ToldAppends, ToldGrowsWithin};

use crate::{Failed, Files, Sink};
use std::alloc::{AllocError, Global};

/// What came of reading a whole file.
#[derive(Drop)]
pub enum Reading {
    Whole(Vec<u8>),
    TooLong,
    Failed,
    Memory,
}

/// How many bytes one read asks for at most.
const PIECE: usize = 65536;

/// Opens the file of this name and reads it to its end, or until more than `limit` bytes were read.
pub fn read_whole<F: Files>(alloc: Global, files: &mut F, name: &str, limit: u64) -> Reading
    ensures told { IfSome ((F.state files.old).held name.now)
        (λ file. SaysOfName limit file (F.state files.new).unread result) }
    ensures within { IsWithin limit result }
    ensures never_falls { (F.state files.old).read_faults ≤ (F.state files.new).read_faults }
    ensures cause { ReadingHasCause (F.state files.old).read_faults (F.state files.new).read_faults result }
    ensures leaves { ReadingLeaves (F.state files.old) (F.state files.new) }
{
    match files.open_in(name) {
        Ok(()) => read_opened(alloc, files, limit),
        Err(Failed) => Reading::Failed,
    }
}

/// Reads the opened input to its end, or until more than `limit` bytes were read.
fn read_opened<F: Files>(alloc: Global, files: &mut F, limit: u64) -> Reading
    ensures told { IfSome (F.state files.old).unread
        (λ text. SaysOfText limit text (F.state files.new).unread result) }
    ensures within { IsWithin limit result }
    ensures never_falls { (F.state files.old).read_faults ≤ (F.state files.new).read_faults }
    ensures cause { ReadingHasCause (F.state files.old).read_faults (F.state files.new).read_faults result }
    ensures leaves { ReadingLeaves (F.state files.old) (F.state files.new) }
{
    let Ok(mut piece) = blank_piece(alloc) else {
        return Reading::Memory;
    };
    let mut bytes = Vec::new(alloc);
    'turns: loop {
        let room = limit - bytes.len() as u64;
        let wanted = if room < PIECE as u64 {
            room as usize + 1
        } else {
            PIECE
        };
        let part = &mut piece[..wanted];
        let Ok(count) = files.read(part) else {
            return Reading::Failed;
        };
        if count == 0 {
            return Reading::Whole(bytes);
        }
        if count as u64 > room {
            return Reading::TooLong;
        }
        if bytes.extend_from_slice(&part[..count]).is_err() {
            return Reading::Memory;
        }
    }
}

/// Room for one read. That its bytes are 0 is of no use to a proof.
fn blank_piece(alloc: Global) -> Result<Vec<u8>, AllocError>
    ensures { IfOk result (λ piece. vec_len piece ≡ PIECE) }
{
    vec![in alloc; 0u8; PIECE]
}

/// Hands the text to the sink as one piece, and after each write what is left of it, until nothing is left.
pub fn write_all<S: Sink>(sink: &mut S, text: &[u8]) -> Result<(), Failed>
    ensures whole { OnOk result (ToldAppends (S.got sink.old) (S.got sink.new) text.now) }
    ensures failed { OnErr result (ToldGrowsWithin (S.got sink.old) (S.got sink.new) text.now) }
    ensures cause { OnErr result (Rose (S.faults sink.old) (S.faults sink.new)) }
    ensures quiet { OnOk result (S.faults sink.new ≡ S.faults sink.old) }
{
    let mut at = 0;
    while at < text.len() {
        let Ok(taken) = sink.write(&text[at..]) else {
            return Err(Failed);
        };
        if taken == 0 {
            return Err(Failed);
        }
        at += taken;
    }
    Ok(())
}
