//! Sets of literals over at most 64 variables, as two words.
//!
//! A [`LitWords`] has one bit for each positive literal and one for each negative one, so that a question about a whole
//! clause is a few steps of arithmetic, and takes no look at its literals:
//!
//! ```text
//! let clause = LitWords::of(&[Lit::new(1), Lit::new(-2), Lit::new(3)]);
//! let mut trues = LitWords::new();
//! trues.insert(Lit::new(2));
//! clause.open(trues, Lit::new(1)) // 3: it is not 1, and not false as -2 is
//! ```
//!
//! Start reading at `specs/Words.antt`. What the literals are of, a clause or a trail, is not told here.
#![tactic(auto)]

mod lit_words;
mod word;

pub use lit_words::LitWords;
