//! What a journal is started with, and its entries.
//!
//! Neither takes memory for what only clauses speak of: of the problem, the records, the texts and the disk there are snapshots.
ghost use Rattle.std.specs.Prelude.{◌≡◌};

use evidence_rec::Records;
use evidence_text::RecordText;
use gm_base::Problem;
use gm_ports::Disk;
use std::marker::Model;
use std::snapshot::Snapshot;

/// What an append answers.
#[derive(Clone, Copy, Debug, PartialEq, Eq)]
pub enum Appended {
    /// The record is on the disk: each crash from now on leaves it there.
    Ok,
    /// The journal has a record of this kind and set.
    Already,
    /// An earlier append failed, and nothing is written any more.
    Closed,
    /// The disk failed, with its count of faults.
    Failed(u64),
    /// There was no memory. Nothing was written, and the seat has ended.
    Memory,
}

/// What a journal was started with: the problem, the records that were salvaged, how many seats there are, and the disk when
/// it had been made ready.
#[derive(Drop)]
pub struct Opening<D: Disk> {
    pub(crate) problem: Snapshot<Problem>,
    pub(crate) records: Snapshot<Records>,
    pub(crate) seats: u32,
    pub(crate) disk: Snapshot<D>,
}

impl<D: Disk> Model for Opening<D> {
    ghost use Rattle.gm_journal.specs.Entries.{OpeningView, opening_of};

    ghost Value = { OpeningView };

    ghost view = { λ o. opening_of o.problem.value o.records.value o.seats (D.state o.disk.value) };
}

/// One append: whose it was, its text, the answer, and the disk at its end.
#[derive(Drop)]
pub struct Entry<D: Disk> {
    pub(crate) who: u32,
    pub(crate) text: Snapshot<RecordText>,
    pub(crate) reply: Appended,
    pub(crate) disk: Snapshot<D>,
}

impl<D: Disk> Model for Entry<D> {
    ghost use Rattle.gm_journal.specs.Entries.{EntryView};

    ghost Value = { EntryView };

    ghost view = { λ e. record { who = e.who; text = e.text.value; reply = e.reply; moment = (D.state e.disk.value).moment } };
}

impl<D: Disk> Entry<D> {
    /// The entry of an append that ends with this answer, on this disk.
    pub(crate) fn at_end(
        who: u32,
        text: Snapshot<RecordText>,
        reply: Appended,
        disk: &D,
    ) -> Entry<D>
        ensures { result ≡ record { who = who; text = text.value; reply = reply; moment = (D.state disk.now).moment } }
    {
        let disk = Snapshot::of(disk);
        Entry {
            who,
            text,
            reply,
            disk,
        }
    }
}
