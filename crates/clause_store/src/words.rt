//! The literals of a clause as a set.
//!
//! Where there are at most 64 variables, the literals of a clause fit two words, which stand in a table beside the records. A
//! search in it for a literal that is not false is a few steps on words then, and the list of all literals is not read.
//!
//! The table only saves time. So a clause is added also where memory for its words is refused: then it has none, nor has
//! any clause behind it, and they are searched by their literals.
ghost use Rattle.std.specs.Prelude.{◌≡◌, ◌<◌, ◌^◌, IfSome};
ghost use Rattle.sat_base.specs.Literals.{AreLiterals};
ghost use Rattle.lit_words.specs.Words.{AreWordsOf};
ghost use Rattle.clause_store.specs.Clauses.{clause_at, IsId};
ghost use Rattle.clause_store.specs.Words.{KeepsUp};

use crate::store::Store;
use lit_words::LitWords;
use sat_base::Lit;
use std::alloc::AllocError;

// The greatest number of variables of which a set is two words.
const FEW: u32 = 64;

// Keeps the words of the clause that comes behind so many, where those before it have theirs.
pub(crate) fn keep_words(words: &mut Vec<LitWords>, vars: u32, count: usize, lits: &[Lit])
    requires { AreLiterals vars lits.now }
    ensures { KeepsUp words.old.items words.new.items count lits.now }
{
    if vars <= FEW && words.len() == count {
        words.push(LitWords::of(lits)).ok();
    }
}

// Makes room for the words of so many more clauses.
pub(crate) fn reserve_words(
    words: &mut Vec<LitWords>,
    vars: u32,
    count: usize,
) -> Result<(), AllocError>
    requires { count < 2 ^ 32 }
    ensures { words.new.items ≡ words.old.items }
{
    if vars <= FEW {
        words.reserve(count)
    } else {
        Ok(())
    }
}

impl Store {
    /// The literals of a clause as a set, where they are kept so.
    pub fn words(&self, id: u64) -> Option<LitWords>
        requires { IsId self.now.clauses id }
        ensures { IfSome result (λ words. AreWordsOf words (clause_at self.now.clauses id).lits) }
    {
        let at = (id - 1) as usize;
        if at < self.words.len() {
            Some(self.words[at])
        } else {
            None
        }
    }
}
