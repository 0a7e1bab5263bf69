//! Laws over the definitions alone. Each is the contract of a function that has no code.
ghost use Rattle.std.specs.Prelude.{◌≡◌, ℕ, List, Some};
ghost use Rattle.evidence_text.specs.Alone.{Written};
ghost use Rattle.gm_journal.specs.Entries.{OpeningView};
ghost use Rattle.gm_journal.specs.Books.{IsKept, Keeps};
ghost use Rattle.gm_journal.specs.Laws.{SalvagedInOneWay, SalvagedAreNotForeign, ForeignAtOnePlace, HeldTextsAreSalvaged, AppendedAreOfRecords, KeptTextsAreOfTheirRecords, FrontTextsAreOfTheirRecords};

use gm_ports::Disk;

/// Bytes are salvaged in one way, and are not foreign then; they are foreign at one place at most; and a disk that holds the
/// texts of records which a journal may hold is salvaged with just these.
pub fn salvage_is_one()
    ensures unique { SalvagedInOneWay }
    ensures not_foreign { SalvagedAreNotForeign }
    ensures one_place { ForeignAtOnePlace }
    ensures crash { HeldTextsAreSalvaged }
{}

/// What is appended are the texts of records. Where they were put into a journal, or a front part of them, a salvage gives these
/// records, and not others of the same sets.
pub fn texts_are_of_their_records()
    ensures appended { AppendedAreOfRecords }
    ensures kept { KeptTextsAreOfTheirRecords }
    ensures front { FrontTextsAreOfTheirRecords }
{}

/// A disk that keeps a journal's records is salvaged with just these, as it reads and as a crash leaves it.
pub fn kept_is_salvaged<D: Disk>(_disk: &D)
    ensures read { (o : OpeningView) (kept : List Written) (gate : ℕ) (bytes : List ℕ) → IsKept (D.state _disk.now) o kept gate
        → (D.state _disk.now).reads ≡ Some bytes → Keeps o kept bytes }
    ensures crash { (o : OpeningView) (kept : List Written) (gate : ℕ) (bytes : List ℕ) → IsKept (D.state _disk.now) o kept gate
        → (D.state _disk.now).may_leave bytes → Keeps o kept bytes }
{}
