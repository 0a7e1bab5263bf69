//! The program's top call, tried by scripts.
//!
//! `main` plays the script whose name it is given, `data/cases`. A case says what the world of a run is like and runs the
//! words of a command line; what a run answered and wrote is printed. `crates/trial_script` says what the lines of a script
//! are. The calls:
//!
//! ```text
//! text NAME [TEXT ..]        a text that all cases share: these texts, and then the lines below
//! hold FILE [TEXT ..]        a file and what it holds: likewise
//! change FILE LINE COUNT     so many of its lines, from this one on (from 1), become the lines below
//! room FILE BYTES            a file that may be written, and how far
//! byte N ..                  the journal's disk holds these bytes behind those so far
//! per KIND BYTES             the most bytes that a call moves, of a KIND: reads, writes, report, errors
//! fail KIND NUMBER ..        these calls of a kind, or of the `disk`, fail, counted from 1
//! sure                       no call of the files fails, and they tell whether they kept all
//! meet                       the first job of a run waits until another worker comes with one
//!
//! run WORD ..                runs these words. Prints the status; what standard output and standard error got, by lines
//!                            behind `out` and `err` (`out.` and `err.` where a line does not end); what failed
//! quiet WORD ..              likewise, without what standard output got
//! each KIND WORD ..          runs these words with each call of a kind failing in turn, until no call fails; and each
//!                            time once more while standard error takes nothing, which has to change nothing else
//! stop WORD ..               runs these words with all calls of the disk failing from the first one on, from the second one on
//!                            and so on, until no call fails; and each time once more on what was left of the disk
//! named NAME WORD ..         runs these words on a disk that holds the bytes under a name. Prints the status, and behind `opened`
//!                            each name under which the disk was opened
//! crash NAME WORD ..         runs these words on such a disk with all its calls failing from the first one on, from the second one on
//!                            and so on, until no call fails. Each time a crash is played behind it, in which what was written since
//!                            the last sync is lost, or kept, or has become other bytes, and the words are run on what it left
//! small COUNT FROM           lists so many small problems, which are made from a number, and compares the reports with
//!                            those of a plain program
//! small_evidence COUNT FROM  likewise, with evidence that is then checked
//!
//! held FILE                  what a file holds after the last run
//! begins FILE TEXT ..        whether it begins with these texts
//! disk                       the bytes of the journal's disk
//! tells                      whether the files kept all
//! spent                      how many clauses were learnt in the last run
//! records                    how many sets were recorded
//! last                       the last line of the report
//! sets TEXT                  of a partial report: how many of these lines it has, in their order
//! ```
//!
//! What is said of the world lasts through a case, and a second `run` meets the files that the first one left; but a call that
//! says more of the world makes them anew. Numbers of bytes that no call names are large enough.
//!
//! Words of a `run` are split at blanks, so a blank at the end of the line stands before an empty word.
//!
//! The player of these calls is in `trial_runs`; `run.rt` has the one call of the program. Nothing is proved of what is printed.
#![tactic(auto)]

mod run;

use run::run_words;
use std::alloc::Global;
use std::{env, io};
use trial_runs::{Machine, Outside, Setting, Trials};
use trial_script::play;

fn main(rt: HostRuntime) -> io::Result<()> {
    let Some(name) = env::args(&rt)?.nth(1) else {
        return Ok(());
    };
    let own = rt.clone()?;
    let run = move |alloc: Global, words: &[&str], setting: &Setting, files: &mut Outside| {
        run_words(&own, alloc, words, setting, files)
    };
    let machine = Machine::new(Box::new(rt.alloc(), run)?);
    let mut player = Trials::new(machine, rt.alloc());
    play(&rt, name.as_str(), &mut player)
}
