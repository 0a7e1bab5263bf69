//! Files in memory of which no call fails.
//!
//! They are a `MemFiles` without failing calls, and go on where that would fail. A name that is not held is read as an
//! empty file. Bytes that have no place are taken and not kept: where nothing is opened, where no room is left, and under
//! a name that may not be written. From then on, or from the opening of a name without room, nothing is told any more.
//! Both counts of faults are always 0, so a run over them meets no fault of the outside.
ghost use Rattle.std.specs.Prelude.{◌≡◌, ℕ, List, [], ◌<◌, ◌+◌, ◌++◌, None, true, false, IfOk, length, take, min};
ghost use Rattle.gm_ports.specs.MemFiles.{held_under, room_under, unread_of, written_of, room_left, writing, fresh_files, IsOpenedOut, files_state as mem_state};
ghost use Rattle.gm_ports.specs.FilesState.{HoldsWhatIsWritten};
ghost use Rattle.gm_ports.specs.SureFiles.{bytes_under, files_state, input_place, HasRoom};
ghost use Rattle.gm_ports.specs.Texts.{text_named, room_named};

use crate::{Calls, Failed, Files, MemFiles, Rooms, Texts};
use std::alloc::{AllocError, Global};
use std::marker::Model;

/// Named files that move at most so many bytes a call and never fail.
#[derive(Drop)]
pub struct SureFiles {
    files: MemFiles,
    tells: bool,
}

impl Model for SureFiles {
    ghost use Rattle.std.specs.Prelude.{◌≡◌, []};
    ghost use Rattle.gm_ports.specs.FilesState.{HoldsWhatIsWritten};
    ghost use Rattle.gm_ports.specs.MemFiles.{files_state as mem_state};
    ghost use Rattle.gm_ports.specs.SureFiles.{SureFilesState};

    ghost Value = { SureFilesState };

    ghost view = { λ s. record { mem = s.files; tells = s.tells } };

    ghost invariant = { λ s. (s.files.reads.failing ≡ []) × (s.files.writes.failing ≡ []) × HoldsWhatIsWritten (mem_state s.files) };
}

impl SureFiles {
    /// Files that hold `held` at first. What is written under a name of `rooms` is kept up to its room in bytes. A read
    /// moves at most `per_read` bytes and a write at most `per_write`. All memory that they need is taken here.
    pub fn new(
        alloc: Global,
        held: Texts,
        rooms: Rooms,
        per_read: usize,
        per_write: usize,
    ) -> Result<SureFiles, AllocError>
        requires reads_some { 0 < per_read }
        requires writes_some { 0 < per_write }
        ensures held { IfOk result (λ made. (name : List ℕ) → held_under made.mem.files name ≡ text_named held name) }
        ensures rooms { IfOk result (λ made. (name : List ℕ) → room_under made.mem.files name ≡ room_named rooms name) }
        ensures rest { IfOk result (λ made. made.mem ≡ fresh_files made.mem.files per_read per_write [] []) }
        ensures tells { IfOk result (λ made. made.tells ≡ true) }
    {
        let reads = Calls::new(alloc);
        let writes = Calls::new(alloc);
        let files = MemFiles::new(alloc, held, rooms, per_read, per_write, reads, writes)?;
        Ok(SureFiles { files, tells: true })
    }

    /// What is kept under a name; nothing where no such file is held.
    pub fn held(&self, name: &str) -> &[u8]
        ensures { result.now ≡ bytes_under self.now.mem.files name.now }
    {
        match self.files.held(name) {
            Some(text) => text,
            None => &[],
        }
    }

    /// Whether it still tells what it holds and what was written.
    pub fn tells(&self) -> bool
        ensures { result ≡ self.now.tells }
    {
        self.tells
    }

    /// Opens a file for reading, from its first byte on.
    pub fn open_in(&mut self, name: &str)
        ensures { self.new ≡ record self.old { mem = record self.old.mem { input = input_place self.old.mem.files name.now; at = 0; reads = self.new.mem.reads } } }
    {
        let _ = self.files.open_in(name);
    }

    /// Reads from the opened input; 0 is its end, and all that there is where nothing is opened.
    pub fn read(&mut self, into: &mut [u8]) -> usize
        ensures gives { result ≡ min (length into.new) (min self.old.mem.per_read (length (unread_of self.old.mem))) }
        ensures bytes { take result into.new ≡ take result (unread_of self.old.mem) }
        ensures state { self.new ≡ record self.old { mem = record self.old.mem { at = self.old.mem.at + result; reads = self.new.mem.reads } } }
        ensures end { result ≡ 0 → 0 < length into.new → unread_of self.old.mem ≡ [] }
    {
        let Ok(count) = self.files.read(into) else {
            return 0;
        };
        count
    }

    /// Opens an output, which makes the file or empties it. What is written under a name without room is not kept.
    pub fn open_out(&mut self, name: &str)
        ensures kept { ¬ (room_under self.old.mem.files name.now ≡ None)
            → (self.new.tells ≡ self.old.tells) × IsOpenedOut self.old.mem self.new.mem name.now }
        ensures lost { room_under self.old.mem.files name.now ≡ None
            → self.new ≡ record self.old { tells = false; mem = record self.old.mem { output = None; is_open = false; writes = self.new.mem.writes } } }
        ensures holds { HoldsWhatIsWritten (mem_state self.new.mem) }
    {
        if self.files.open_out(name).is_err() {
            self.tells = false;
        }
    }

    /// Writes to the opened output. Where no room is left, and where nothing is opened, the bytes are not kept.
    pub fn write(&mut self, piece: &[u8]) -> usize
        ensures nothing { piece.now ≡ [] → (result ≡ 0) × (self.new ≡ self.old) }
        ensures kept { ¬ (piece.now ≡ []) → HasRoom self.old.mem
            → (result ≡ min (length piece.now) (min self.old.mem.per_write (room_left self.old.mem)))
            × (self.new ≡ record self.old { mem = record self.old.mem { files = writing self.old.mem (written_of self.old.mem ++ take result piece.now); writes = self.new.mem.writes } })
            × (written_of self.new.mem ≡ written_of self.old.mem ++ take result piece.now) }
        ensures lost { ¬ (piece.now ≡ []) → ¬ HasRoom self.old.mem
            → (result ≡ min (length piece.now) self.old.mem.per_write)
            × (self.new ≡ record self.old { tells = false; mem = record self.old.mem { writes = self.new.mem.writes } }) }
        ensures some { 0 < length piece.now → 0 < result }
        ensures holds { HoldsWhatIsWritten (mem_state self.new.mem) }
    {
        let most = self.files.per_write();
        if piece.is_empty() {
            return 0;
        }
        let Ok(count) = self.files.write(piece) else {
            self.tells = false;
            return piece.len().min(most);
        };
        count
    }

    /// Ends the opened output.
    pub fn finish_out(&mut self)
        ensures { self.new ≡ record self.old { mem = record self.old.mem { is_open = false; writes = self.new.mem.writes } } }
    {
        let _ = self.files.finish_out();
    }
}

impl Files for SureFiles {
    ghost state = { files_state };

    fn open_in(&mut self, name: &str) -> Result<(), Failed> {
        self.open_in(name);
        Ok(())
    }

    fn read(&mut self, into: &mut [u8]) -> Result<usize, Failed> {
        Ok(self.read(into))
    }

    fn open_out(&mut self, name: &str) -> Result<(), Failed> {
        self.open_out(name);
        Ok(())
    }

    fn write(&mut self, piece: &[u8]) -> Result<usize, Failed> {
        Ok(self.write(piece))
    }

    fn finish_out(&mut self) -> Result<(), Failed> {
        self.finish_out();
        Ok(())
    }
}
