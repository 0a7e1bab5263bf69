//! The program over the system's files and streams.
//!
//! They tell nothing of their bytes, so what `run` says of bytes says nothing here: not that the listed problem is the one
//! in the file, nor that its report or its evidence was written, nor what evidence was read and checked, nor what standard
//! error got. What speaks of no bytes stays, in the same records: which causes counts of faults and the words tell; of a
//! listing, with 0, 3, 4 and 7, and with 8 where memory was wanting for the evidence, what is left of its enumeration of some
//! problem, that an audit says yes to its evidence, where that was asked for, and that a listing which goes on from evidence
//! begins with the records of some text of which nothing is refused; of an export, with 0 and 7, that what was made is a
//! refutation of the clauses of some conflict that such a text shows; of `roles`, with 0, 3, 4 and 7, what is left of its
//! enumeration; of a carrying, what a listing of some problem tells, that it extends another one, of which such a text shows the
//! records that were carried over. Of a listing with a journal the causes that counts of faults tell, the disk's among them,
//! and what is left of its enumeration. That a focus narrows the problem says nothing here.
ghost use Rattle.std.specs.Prelude.{◌≡◌, ℕ, List, Some, None, IfSome, IsSome, ⊤};
ghost use Rattle.gm_words.specs.Reading.{Listing as Listed, Checking as Checked, Drilling as Drilled, Exporting as Exported, Asking as Asked, Carrying as Carried, listing, checking, drilling, exporting, asking, carrying};
ghost use Rattle.gm_io.specs.Outside.{untold};
ghost use Rattle.gm_tool.specs.Carrying.{IsCarrying};
ghost use Rattle.gm_tool.specs.Checking.{IsChecking};
ghost use Rattle.gm_tool.specs.Drilling.{IsDrilling};
ghost use Rattle.gm_tool.specs.Exporting.{IsExporting};
ghost use Rattle.gm_tool.specs.Journaled.{IsJournaled};
ghost use Rattle.gm_tool.specs.Listing.{IsListing};
ghost use Rattle.gm_tool.specs.Roles.{IsAsking};
ghost use Rattle.gm_tool.specs.Run.{IsRun};
ghost use Rattle.gm_tool.specs.Words.{IsUnread, asked_in, bounds_of, journal_in, outputs_of};

use gm_ports::OpenGate;
use gm_tool::{Finish, run};
use os_ports::{RealDisk, RealFiles, StreamSink};
use std::alloc::Global;
use std::io::Print;
use std::rt;
use std::sync::Wait;
use std::thread::Threads;

/// Runs the program over the system's files and streams.
pub fn run_on_system<'a, R: rt::Files + Threads + Wait + Sync, O: Print, E: Print>(
    rt: &R,
    alloc: Global,
    words: &[String],
    files: &mut RealFiles<'_, R>,
    out: &mut StreamSink<O>,
    err: &mut StreamSink<E>,
    disk: RealDisk<'a>,
) -> (Finish, Option<RealDisk<'a>>)
    // What holds of every command without a journal.
    ensures every { journal_in (asked_in words.now) ≡ None → IsRun (bounds_of (asked_in words.now)) (outputs_of (asked_in words.now))
        (untold files.old.read_faults files.old.write_faults out.old.faults)
        (untold files.new.read_faults files.new.write_faults out.new.faults) (λ _. ⊤) result.0 }

    // What each command tells.
    ensures listing { (l : Listed) → asked_in words.now ≡ Some (listing l) → l.journal ≡ None → IsListing l
        (untold files.old.read_faults files.old.write_faults out.old.faults)
        (untold files.new.read_faults files.new.write_faults out.new.faults) (λ _. ⊤) result.0 }
    ensures checking { (c : Checked) → asked_in words.now ≡ Some (checking c) → IsChecking c
        (untold files.old.read_faults files.old.write_faults out.old.faults)
        (untold files.new.read_faults files.new.write_faults out.new.faults) (λ _. ⊤) result.0 }
    ensures drilling { (d : Drilled) → asked_in words.now ≡ Some (drilling d) → IsDrilling d
        (untold files.old.read_faults files.old.write_faults out.old.faults)
        (untold files.new.read_faults files.new.write_faults out.new.faults) (λ _. ⊤) result.0 }
    ensures exporting { (x : Exported) → asked_in words.now ≡ Some (exporting x) → IsExporting x
        (untold files.old.read_faults files.old.write_faults out.old.faults)
        (untold files.new.read_faults files.new.write_faults out.new.faults) (λ _. ⊤) result.0 }
    ensures roles { (a : Asked) → asked_in words.now ≡ Some (asking a) → IsAsking a
        (untold files.old.read_faults files.old.write_faults out.old.faults)
        (untold files.new.read_faults files.new.write_faults out.new.faults) (λ _. ⊤) result.0 }
    ensures carrying { (c : Carried) → asked_in words.now ≡ Some (carrying c) → IsCarrying c
        (untold files.old.read_faults files.old.write_faults out.old.faults)
        (untold files.new.read_faults files.new.write_faults out.new.faults) (λ _. ⊤) result.0 }
    ensures without_reading { asked_in words.now ≡ None → IsUnread
        (untold files.old.read_faults files.old.write_faults out.old.faults)
        (untold files.new.read_faults files.new.write_faults out.new.faults) result.0 }

    // What a listing with a journal tells, of a disk that tells how many faults it counted. The disk is that of no other command.
    ensures journaled { (l : Listed) (name : List ℕ) → asked_in words.now ≡ Some (listing l) → l.journal ≡ Some name → IfSome result.1 (λ after. IsJournaled (λ d. record { reads = None; may_leave = λ c. ⊤; moment = 0; left_since = λ t c. ⊤; held = λ n. None; name = None; faults = d.faults }) l name disk.entry after
        (untold files.old.read_faults files.old.write_faults out.old.faults)
        (untold files.new.read_faults files.new.write_faults out.new.faults) (λ _. ⊤) result.0) }
    ensures untouched { journal_in (asked_in words.now) ≡ None → result.1 ≡ Some disk.entry }
    ensures disk { IsSome result.1 }
{
    run(rt, alloc, words, files, out, err, &OpenGate, disk)
}
