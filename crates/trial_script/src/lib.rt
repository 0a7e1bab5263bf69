//! Scripts: calls as text, each with what it has to print below it.
//!
//! A script is a file of lines, and [`play`] hands its calls to a [`Player`], in their order:
//!
//! ```text
//! == row 1: two pairs clash          a case begins, which is printed as it stands
//! # a comment
//! hold f                             a call: words with blanks between them
//! | p gcnf 1 2 2                     a line of the call's text, with its end
//! |. {1} 1 0                         the same without its end, where a text does not end with one
//! list f
//! = status 0                         what has to be printed there
//! ```
//!
//! What has to be printed is passed over here, so that no player can copy it: `dev/trials.py` takes it from there for the
//! file `stdout` of the crate, with which the gate compares what was printed. A call that the player doesn't know is
//! printed behind `? `, and so is one in which a word with a digit stands where a number is due and is none. In a text `\r`,
//! `\t`, `\\` and `\x0b` stand for a CR, a tab, a backslash and the byte 11.
//!
//! Start reading at `step.rt`. Nothing is proved of a script but that it is played to its end.
#![tactic(auto)]

mod line;
mod numbers;
mod script;
mod shown;
mod step;

pub use line::{Line, line_of};
pub use script::{Player, play};
pub use shown::{hold, known, show};
pub use step::{Step, has_digit};
