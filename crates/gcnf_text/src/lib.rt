//! The reader of problems in GCNF and CNF, and the writer of their plain text.
//!
//! GCNF is the group-oriented CNF of the MUS track of the SAT competition 2011, in this project's profile. A text has a
//! header, and then clauses with their groups in braces. CNF is that of DIMACS, where each clause is a group of its own:
//! the first clause is group 1, and there is no background.
//!
//! ```text
//! c two groups over a background      c three clauses, three groups
//! p gcnf 2 3 2                        p cnf 2 3
//! {0} 1 2 0                           1 2 0
//! {1} -1 0                            -1 0
//! {2} -2 0                            -2 0
//! ```
//!
//! White space and comment lines may stand between any two tokens. [`read_gcnf`] goes over the tokens once:
//!
//! ```text
//! match read_gcnf(alloc, text) {
//!     Read::Problem(problem) => ..,
//!     Read::Refused(Offence { number, limit, line, byte }) => ..,
//!     Read::Memory => ..,
//! }
//! ```
//!
//! [`write_gcnf`] writes the one plain text of a problem, which is read as that problem again, and [`make_case`] makes a
//! problem of any size from a number, to try a listing on.
//!
//! Start reading at `specs/Grammar.antt`, which says of which problem a text is, and at `specs/Table.antt`, which says
//! what a text's first offence is; `specs/Read.antt` says what the three answers mean, `specs/Laws.antt` what a first
//! offence is worth, `specs/Plain.antt` which text is plain, `specs/Chain.antt` which problem a number makes, and
//! `specs/Rows.antt` has worked texts. What a token is, and what its place, is for the crate `token_text`.
#![tactic(auto)]

mod chain;
mod clause;
mod form;
mod header;
pub mod laws;
mod offence;
mod plain;
mod progress;
mod reader;

pub use chain::make_case;
pub use offence::{Limit, Offence};
pub use plain::write_gcnf;
pub use reader::{MAX_BYTES, Read, read_gcnf};
