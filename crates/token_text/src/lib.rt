//! The tokens of a text with their places, and the digits of a number.
//!
//! A text is cut into words, numbers and braces; white space and comment lines stand between them. [`Tokens`] goes over
//! a text once, takes no memory, and answers a token at a time with its line and byte:
//!
//! ```text
//! let mut tokens = Tokens::new(b"p gcnf 2 4 4\n{1} 1 0\n");
//! loop {
//!     let Answer { found, line, byte } = tokens.next();
//!     match found {
//!         Found::Word(word) => ..,
//!         Found::Number(number) => ..,
//!         Found::OpenBrace | Found::CloseBrace => ..,
//!         Found::End => break,
//!     }
//! }
//! ```
//!
//! Start reading at `specs/Kinds.antt` and `specs/Tokens.antt`, which say what the tokens of a text are; `specs/Rows.antt`
//! has worked examples that these definitions compute. What a header, a clause or a group is, and which order of tokens a
//! file has to have, is for the crates above.
#![tactic(auto)]

mod answer;
mod cursor;
mod digits;
mod run;
mod tokens;

pub use answer::{Answer, Found};
pub use digits::put_number;
pub use tokens::Tokens;
