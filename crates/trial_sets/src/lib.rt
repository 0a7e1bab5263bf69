//! Sets of groups in scripts: the words of a call or a move that name them, the lines that tell them, and the problem and the moves
//! of a case.
//!
//! ```text
//! four-clauses                 the problem of lawful_fakes: x, not x, x implies y, and not y, in the groups 1 to 4
//! problem                      the problem that the text below is, in GCNF
//! turn 1 : 000 : 1             a call: parts with a `:` between them, of numbers, a set, or values
//! | shrink 1 2 3               a move, a line of the call's text
//! ```
//!
//! Any line that isn't known, or whose numbers don't fit, is printed behind `? `. Start reading at `moves.rt`. It is apart, so that
//! `lawful_trials` and `worker_trials` have it proved once.
#![tactic(auto)]

mod moves;
mod problems;
mod telling;
mod words;

pub use moves::{Mover, Played, answered, make_moves, played};
pub use problems::hold_problem;
pub use telling::{add_numbers, say, say_count, say_log, say_numbers, say_proof};
pub use words::{
    ALL, has_word, lines_of, number_at, numbers_in, pairs_in, part_of, parts_in, set_in, values_in,
    without_digit,
};
