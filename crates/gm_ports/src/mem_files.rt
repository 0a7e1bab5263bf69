//! Files in memory.
//!
//! A trial says what is held at first, which names may be written and how far, how many bytes a call moves at most, and
//! which calls fail. All memory is taken when the object is made: each name that may be written has its whole room from
//! then on, and no call moves a file. So a place in the list of files stays that file's place, and the opened input and
//! output are places.
ghost use Rattle.std.specs.Prelude.{◌≡◌, ℕ, ◌≤◌, ◌<◌, ◌+◌, ◌-◌, ◌^◌, ◌++◌, ◌↔◌, ◌⊎◌, [], Some, None, true, false, IfOk, IfSome, OnOk, OnErr, IsErr, Contains, length, take, min, option_copied, Option, List};
ghost use Rattle.std.specs.Option.{option_map};
ghost use Rattle.gm_ports.specs.Faults.{HasCause, WriteHasCause};
ghost use Rattle.gm_ports.specs.FilesState.{HoldsWhatIsWritten};
ghost use Rattle.gm_ports.specs.MemFiles.{files_state, place_of, held_under, room_under, unread_of, written_of, room_left, writing, holding, fresh_files, IsOpenedOut};
ghost use Rattle.gm_ports.specs.Schedule.{Fails, after_call, after_fault};
ghost use Rattle.gm_ports.specs.Texts.{text_named, room_named};

use crate::file_list::FileList;
use crate::schedule::Schedule;
use crate::{Calls, Failed, Files, Rooms, Texts};
use std::alloc::{AllocError, Global};
use std::marker::Model;

/// Named files that tell all, move at most so many bytes a call, and fail at the calls that they were told to fail at.
#[derive(Drop)]
pub struct MemFiles {
    files: FileList,
    input: Option<usize>,
    at: usize,
    output: Option<usize>,
    is_open: bool,
    per_read: usize,
    per_write: usize,
    reads: Schedule,
    writes: Schedule,
}

impl Model for MemFiles {
    ghost use Rattle.gm_ports.specs.MemFiles.{MemFilesState, AreMemFiles};

    ghost Value = { MemFilesState };

    ghost view = { λ s. record {
      files = s.files;
      input = s.input;
      at = s.at;
      output = s.output;
      is_open = s.is_open;
      per_read = s.per_read;
      per_write = s.per_write;
      reads = s.reads;
      writes = s.writes;
    } };

    ghost invariant = { λ s. AreMemFiles (record {
      files = s.files;
      input = s.input;
      at = s.at;
      output = s.output;
      is_open = s.is_open;
      per_read = s.per_read;
      per_write = s.per_write;
      reads = s.reads;
      writes = s.writes;
    }) };
}

impl MemFiles {
    /// Files that hold `held` at first. The names in `rooms` may be written, each up to its room in bytes. A read moves
    /// at most `per_read` bytes and a write at most `per_write`. The calls of the numbers in `failing_reads` fail, and
    /// so do those in `failing_writes`: `open_in` and `read` are numbered together, from 1, and so are `open_out`,
    /// `write` and `finish_out`. All memory that they need is taken here.
    pub fn new(
        alloc: Global,
        held: Texts,
        rooms: Rooms,
        per_read: usize,
        per_write: usize,
        failing_reads: Calls,
        failing_writes: Calls,
    ) -> Result<MemFiles, AllocError>
        requires reads_some { 0 < per_read }
        requires writes_some { 0 < per_write }
        ensures held { IfOk result (λ made. (name : List ℕ) → held_under made.files name ≡ text_named held name) }
        ensures rooms { IfOk result (λ made. (name : List ℕ) → room_under made.files name ≡ room_named rooms name) }
        ensures rest { IfOk result (λ made. made ≡ fresh_files made.files per_read per_write failing_reads failing_writes) }
    {
        let files = FileList::new(alloc, held, rooms)?;
        let reads = Schedule::new(failing_reads);
        let writes = Schedule::new(failing_writes);
        Ok(MemFiles::fresh(files, per_read, per_write, reads, writes))
    }

    // Files of which nothing was opened yet.
    fn fresh(
        files: FileList,
        per_read: usize,
        per_write: usize,
        reads: Schedule,
        writes: Schedule,
    ) -> MemFiles
        requires reads_some { 0 < per_read }
        requires writes_some { 0 < per_write }
        ensures { result ≡ record (fresh_files files per_read per_write [] []) { reads = reads; writes = writes } }
    {
        MemFiles {
            files,
            input: None,
            at: 0,
            output: None,
            is_open: false,
            per_read,
            per_write,
            reads,
            writes,
        }
    }

    /// What is held under a name, where there is such a file.
    pub fn held(&self, name: &str) -> Option<&[u8]>
        ensures { option_copied result ≡ held_under self.now.files name.now }
    {
        match self.files.place_to_read(name) {
            Some(place) => Some(self.files.text(place)),
            None => None,
        }
    }

    /// How many of its reading calls failed.
    pub fn read_faults(&self) -> u64
        ensures { result ≡ self.now.reads.faults }
    {
        self.reads.faults()
    }

    /// How many of its writing calls failed.
    pub fn write_faults(&self) -> u64
        ensures { result ≡ self.now.writes.faults }
    {
        self.writes.faults()
    }

    /// The most bytes that a write moves.
    pub(crate) fn per_write(&self) -> usize
        ensures most { result ≡ self.now.per_write }
        ensures some { 0 < result }
    {
        self.per_write
    }

    /// Opens a file for reading. Whatever it answers, the last input is closed.
    pub fn open_in(&mut self, name: &str) -> Result<(), Failed>
        ensures fails { IsErr result ↔ (Fails self.old.reads ⊎ (held_under self.old.files name.now ≡ None)) }
        ensures ok { OnOk result (self.new
            ≡ record self.old {
              input = place_of self.old.files name.now;
              at = 0;
              reads = after_call self.old.reads;
            }) }
        ensures err { OnErr result (self.new
            ≡ record self.old { input = None; at = 0; reads = after_fault self.old.reads }) }
        ensures cause { HasCause self.old.reads.faults self.new.reads.faults result }
    {
        let place = self.files.place_to_read(name);
        self.input = None;
        self.at = 0;
        self.reads.begin(place.is_some())?;
        self.input = place;
        Ok(())
    }

    /// Reads from the opened input.
    pub fn read(&mut self, into: &mut [u8]) -> Result<usize, Failed>
        ensures fails { IsErr result ↔ (Fails self.old.reads ⊎ (self.old.input ≡ None)) }
        ensures gives { IfOk result (λ n. n ≡ min (length into.new) (min self.old.per_read (length (unread_of self.old)))) }
        ensures bytes { IfOk result (λ n. take n into.new ≡ take n (unread_of self.old)) }
        ensures ok { IfOk result (λ n. self.new
            ≡ record self.old { at = self.old.at + n; reads = after_call self.old.reads }) }
        ensures err { OnErr result (self.new ≡ record self.old { reads = after_fault self.old.reads }) }
        ensures end { IfOk result (λ n. n ≡ 0 → 0 < length into.new → unread_of self.old ≡ []) }
        ensures cause { HasCause self.old.reads.faults self.new.reads.faults result }
    {
        self.reads.begin(self.input.is_some())?;
        let Some(place) = self.input else {
            unreachable!()
        };
        let text = self.files.text(place);
        let start = self.at.min(text.len());
        let count = into.len().min(self.per_read).min(text.len() - start);
        copy_to(into, &text[start..start + count]);
        self.at += count;
        Ok(count)
    }

    /// Opens an output. Whatever it answers, the last output is closed.
    pub fn open_out(&mut self, name: &str) -> Result<(), Failed>
        ensures fails { IsErr result ↔ (Fails self.old.writes ⊎ (room_under self.old.files name.now ≡ None)) }
        ensures ok { OnOk result (IsOpenedOut self.old self.new name.now) }
        ensures err { OnErr result (self.new
            ≡ record self.old {
              output = None;
              is_open = false;
              writes = after_fault self.old.writes;
            }) }
        ensures cause { HasCause self.old.writes.faults self.new.writes.faults result }
        ensures holds { HoldsWhatIsWritten (files_state self.new) }
    {
        let found = self.files.place_to_write(name);
        self.output = None;
        self.is_open = false;
        self.writes.begin(found.is_some())?;
        let Some(place) = found else { unreachable!() };
        self.files.clear(place);
        self.output = Some(place);
        self.is_open = true;
        Ok(())
    }

    /// Writes to the opened output.
    pub fn write(&mut self, piece: &[u8]) -> Result<usize, Failed>
        ensures fails { IsErr result ↔ (Fails self.old.writes ⊎ (self.old.is_open ≡ false)
            ⊎ ((0 < length piece.now) × (room_left self.old ≡ 0))) }
        ensures takes { IfOk result (λ n. n ≡ min (length piece.now) (min self.old.per_write (room_left self.old))) }
        ensures ok { IfOk result (λ n. self.new
            ≡ record self.old { files = writing self.old (written_of self.old ++ take n piece.now); writes = after_call self.old.writes }) }
        ensures err { OnErr result (self.new ≡ record self.old { writes = after_fault self.old.writes }) }
        ensures grows { IfOk result (λ n. written_of self.new ≡ written_of self.old ++ take n piece.now) }
        ensures holds { HoldsWhatIsWritten (files_state self.new) }
        ensures cause { WriteHasCause self.old.writes.faults self.new.writes.faults piece.now result }
    {
        let left = self.left();
        self.writes
            .begin(self.is_open && (left > 0 || piece.is_empty()))?;
        let Some(place) = self.output else {
            unreachable!()
        };
        let count = piece.len().min(self.per_write).min(left);
        self.files.append(place, &piece[..count]);
        Ok(count)
    }

    // How many bytes the output may still grow by.
    fn left(&self) -> usize
        ensures { result ≡ room_left self.now }
    {
        match self.output {
            Some(place) => self.files.room_left(place),
            None => 0,
        }
    }

    /// Ends the opened output. Whatever it answers, the output is closed.
    pub fn finish_out(&mut self) -> Result<(), Failed>
        ensures fails { IsErr result ↔ (Fails self.old.writes ⊎ (self.old.is_open ≡ false)) }
        ensures ok { OnOk result (self.new
            ≡ record self.old { is_open = false; writes = after_call self.old.writes }) }
        ensures err { OnErr result (self.new
            ≡ record self.old { is_open = false; writes = after_fault self.old.writes }) }
        ensures cause { HasCause self.old.writes.faults self.new.writes.faults result }
    {
        let was_open = self.is_open;
        self.is_open = false;
        self.writes.begin(was_open)
    }
}

/// Copies the text to the front of `into`.
fn copy_to(into: &mut [u8], text: &[u8])
    requires { length text.now ≤ length into.old }
    ensures { take (length text.now) into.new ≡ text.now }
{
    into[..text.len()].copy_from_slice(text);
}

impl Files for MemFiles {
    ghost state = { files_state };

    fn open_in(&mut self, name: &str) -> Result<(), Failed> {
        self.open_in(name)
    }

    fn read(&mut self, into: &mut [u8]) -> Result<usize, Failed> {
        self.read(into)
    }

    fn open_out(&mut self, name: &str) -> Result<(), Failed> {
        self.open_out(name)
    }

    fn write(&mut self, piece: &[u8]) -> Result<usize, Failed> {
        self.write(piece)
    }

    fn finish_out(&mut self) -> Result<(), Failed> {
        self.finish_out()
    }
}
