//! The third literal of a clause of three.
//!
//! Most clauses of many formulas have three literals, and propagation comes to such a clause with two of them at hand. The
//! rows of all three are kept in the clause's record as one number, their exclusive or, so the row that is left comes from
//! that number and the two. It needs no care where a watch moves, and the list of all literals is not read.
ghost use Rattle.std.specs.Prelude.{◌≡◌, ℤ, ◌<◌, ◌^◌, length, Some, IfSome, IfNone};
ghost use Rattle.sat_base.specs.Literals.{var_of};
ghost use Rattle.clause_store.specs.Clauses.{clause_at, IsId};
ghost use Rattle.clause_store.specs.Links.{row_of};
ghost use Rattle.clause_store.specs.Thirds.{mix_of, AreTwoOfThree, IsLeft};

use crate::links::row_of;
use crate::store::Store;
use sat_base::Lit;

fn row(lit: Lit) -> u32
    ensures { result ≡ row_of lit }
{
    row_of(lit) as u32
}

/// The rows of three literals in one number.
pub fn mix(lits: &[Lit]) -> u32
    ensures { length lits.now ≡ 3 → result ≡ mix_of lits.now }
{
    if lits.len() == 3 {
        row(lits[0]) ^ (row(lits[1]) ^ row(lits[2]))
    } else {
        0
    }
}

// The literal of a row.
fn literal_of(row: u32) -> Option<Lit>
    ensures { (lit : ℤ) → row_of lit ≡ row → 0 < var_of lit → result ≡ Some lit }
{
    let var = (row / 2) as i32;
    if var == 0 {
        return None;
    }
    Some(Lit::new(if row % 2 == 0 { var } else { -var }))
}

impl Store {
    /// The literal that is left of a clause of three beside these two of it.
    pub fn third(&self, id: u64, first: Lit, second: Lit) -> Option<Lit>
        requires { IsId self.now.clauses id }
        ensures left { IfSome result (λ lit. AreTwoOfThree (clause_at self.now.clauses id).lits first second → IsLeft (clause_at self.now.clauses id).lits first second lit) }
        ensures three { IfSome result (λ lit. length (clause_at self.now.clauses id).lits ≡ 3) }
        ensures none { IfNone result (¬ AreTwoOfThree (clause_at self.now.clauses id).lits first second) }
    {
        let record = &self.records[(id - 1) as usize];
        if record.shape.literals() == 3 {
            literal_of(record.third ^ row(first) ^ row(second))
        } else {
            None
        }
    }
}
