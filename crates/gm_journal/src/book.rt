//! The journal as a book.
//!
//! It keeps the disk, the sets of the records that are on it, the gate at which they end, whether an append failed, and its
//! entries. While none failed, the frames of its records stand on the disk, and nothing is pending; afterwards the disk is
//! not touched any more, so what the failure left stays.
ghost use Rattle.std.specs.Prelude.{◌≡◌, ◌+◌, ◌<◌, ◌^◌, ◌++◌, ◌∷◌, [], false, ℕ, List, Some, IfOk, IfErr, IsSome, length};
ghost use Rattle.gm_ports.specs.DiskState.{TellsStill, AtEachMoment};
ghost use Rattle.turn_lock.specs.Calls.{calls_by};
ghost use Rattle.evidence_rec.specs.Index.{IsIndex};
ghost use Rattle.evidence_text.specs.Readable.{IsSmall};
ghost use Rattle.gm_journal.specs.Entries.{EntryView, who_of};
ghost use Rattle.gm_journal.specs.Histories.{kept_in, has_failed, count_in, MayAppend, Tells, IsLegal, IsUnasked, AppendHasCause};
ghost use Rattle.gm_journal.specs.Books.{KeepsWithOrWithout, IsKept, IsKeptOpen, IsOpenedOn, IsGoneOn, IsWhole};

use crate::answering::answer;
use crate::entry::{Appended, Entry, Opening};
use evidence_rec::Held;
use evidence_text::RecordText;
use gm_ports::Disk;
use std::alloc::{AllocError, Global};
use std::marker::Model;
use std::snapshot::Snapshot;
use turn_lock::Book;

/// There was no memory for a journal. The disk comes back.
#[derive(Drop)]
pub(crate) struct Unopened<D> {
    pub(crate) disk: D,
}

/// A journal on a disk, with all its entries.
#[derive(Drop)]
pub struct JournalBook<D: Disk> {
    disk: D,
    held: Held,
    gate: u64,
    is_closed: bool,
    seats: u32,
    opening: Opening<D>,
    history: Vec<Entry<D>>,
}

impl<D: Disk> Model for JournalBook<D> {
    ghost use Rattle.std.specs.Prelude.{◌≡◌, vec_capacity};
    ghost use Rattle.gm_journal.specs.Books.{BookState, IsInOrder};

    ghost Value = { BookState D };

    ghost view = { λ b. record { disk = b.disk; gate = b.gate; opening = b.opening; history = b.history.items } };

    ghost invariant = { λ b. IsInOrder (D.state b.disk) b.held b.gate b.is_closed b.opening b.history.items (vec_capacity b.history) × (b.seats ≡ b.opening.seats) };
}

impl<D: Disk> JournalBook<D> {
    /// A journal over a disk that was made ready, whose sets are held, and of which no seat has made a call.
    pub(crate) fn open(
        alloc: Global,
        disk: D,
        held: Held,
        gate: u64,
        seats: u32,
        opening: Opening<D>,
    ) -> Result<JournalBook<D>, Unopened<D>>
        requires small { IsSmall opening.problem }
        requires gate { gate + 1 < 2 ^ 64 }
        requires seats { seats ≡ opening.seats }
        requires held { IsIndex held opening.records }
        requires kept { (bytes : List ℕ) → (D.state disk).reads ≡ Some bytes → IsKept (D.state disk) opening [] gate }
        requires disk { IsOpenedOn (D.state disk) opening }
        ensures ok { IfOk result (λ book. book ≡ record { disk = disk; gate = gate; opening = opening; history = [] }) }
        ensures err { IfErr result (λ e. e.disk ≡ disk) }
    {
        match Vec::with_capacity(alloc, seats as usize) {
            Ok(history) => Ok(JournalBook {
                disk,
                held,
                gate,
                is_closed: false,
                seats,
                opening,
                history,
            }),
            Err(AllocError) => Err(Unopened { disk }),
        }
    }

    /// The disk. Where it tells and no append failed, it has all records and nothing is pending; and where one did, it has all that
    /// were acknowledged, and maybe that one.
    pub fn into_disk(self) -> D
        ensures disk { result ≡ self.disk }
        ensures kept { IsKeptOpen (D.state result) self.opening self.history self.gate }
        ensures count { (D.state result).faults ≡ count_in self.opening.faults self.history }
        ensures gone_on { IsGoneOn (D.state result) self.opening self.history }
        ensures whole { IsSome (D.state result).reads → IsWhole (D.state result) self.opening self.history }
    {
        self.disk
    }
}

impl<D: Disk> Book for JournalBook<D> {
    type Op = RecordText;

    type Reply = Appended;

    type Entry = Entry<D>;

    type Opening = Opening<D>;

    ghost opening = { λ b. b.opening };

    ghost history = { λ b. b.history };

    ghost caller = { who_of };

    ghost legal = { IsLegal };

    ghost may = { MayAppend };

    ghost tells = { Tells };

    fn apply(&mut self, who: u32, op: RecordText) -> Appended
        requires { MayAppend self.old.opening who op (calls_by who_of who self.old.history) }
        ensures opening { self.new.opening ≡ self.old.opening }
        ensures entry { (e : EntryView) × (self.new.history ≡ self.old.history ++ e ∷ []) × (who_of e ≡ who) × Tells self.old.opening self.old.history op result e }
        ensures legal { IsLegal self.new.opening self.new.history }
        ensures short { length self.new.history < 2 ^ 63 }

        // A crash at any moment of the entry leaves the records from before it, with the new one or without.
        ensures any_moment { has_failed self.old.history ≡ false → (bytes : List ℕ) → (D.state self.old.disk).reads ≡ Some bytes
            → AtEachMoment (D.state self.old.disk) (D.state self.new.disk) (KeepsWithOrWithout self.old.opening (kept_in self.old.history) op) }

        // While no append has failed, all records are on the disk between two entries.
        ensures kept { IsKeptOpen (D.state self.new.disk) self.new.opening self.new.history self.new.gate }
        ensures untouched { IsUnasked result → self.new.disk ≡ self.old.disk }

        // Whatever failed, what a crash leaves since an earlier entry has each record that was acknowledged by then.
        ensures gone_on { IsGoneOn (D.state self.new.disk) self.new.opening self.new.history }
        ensures whole { IsSome (D.state self.new.disk).reads → IsWhole (D.state self.new.disk) self.new.opening self.new.history }
        ensures tells { TellsStill (D.state self.old.disk) (D.state self.new.disk) }
        ensures cause { AppendHasCause (D.state self.old.disk).faults (D.state self.new.disk).faults result }
    {
        let text = Snapshot::of(&op);
        if self.history.reserve(self.seats as usize + 1).is_err() {
            self.history
                .push_reserved(Entry::at_end(who, text, Appended::Memory, &self.disk));
            return Appended::Memory;
        }
        let reply = answer(
            &mut self.disk,
            &mut self.held,
            &mut self.gate,
            &mut self.is_closed,
            op,
        );
        self.history
            .push_reserved(Entry::at_end(who, text, reply, &self.disk));
        reply
    }
}
