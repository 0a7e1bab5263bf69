//! Clauses that are given to solvers.
//!
//! Many solvers may search the same clauses, each with a log of its own, which begins with what it was given. So these clauses
//! stand once, behind a shared pointer: the literals of all, one after another, and of each clause where its own end. They begin
//! where those of the clause before it end, so a clause takes four bytes, and four for each of its literals.
ghost use Rattle.std.specs.Prelude.{◌≡◌, ◌≤◌, ◌<◌, ◌^◌, [], ◌∷◌, ◌++◌, Some, IfOk, OnOk, OnErr, length, slice_get, slice_index_or};
ghost use Rattle.std.specs.Arc.{arc_value};

use sat_base::{Lit, end_of};
use std::alloc::{AllocError, Global};
use std::marker::Model;
use std::sync::Arc;

/// Clauses that are given to solvers, in their order, which many logs share.
#[derive(Drop)]
pub struct Given {
    clauses: Arc<Clauses, Global>,
}

impl Model for Given {
    ghost use Rattle.std.specs.Prelude.{List, ℤ};
    ghost use Rattle.std.specs.Arc.{arc_value};

    ghost Value = { List (List ℤ) };

    ghost view = { λ given. arc_value given.clauses };
}

impl Given {
    /// One more reference to them. It takes no memory, and fails where there are 2^63 references already.
    pub fn copy(&self) -> Result<Given, AllocError>
        ensures { IfOk result (λ copy. copy ≡ self.now) }
    {
        let clauses = Arc::try_clone(&self.clauses)?;
        Ok(Given { clauses })
    }

    /// How many there are.
    pub fn len(&self) -> u32
        ensures { result ≡ length self.now }
    {
        self.clauses.len()
    }

    /// The clause at a place, from 0.
    pub fn lits(&self, at: u32) -> &[Lit]
        requires { at < length self.now }
        ensures { slice_get self.now at ≡ Some result.now }
    {
        self.clauses.lits(at)
    }
}

/// Clauses that are being put together.
#[derive(Drop)]
pub struct GivenBuilder {
    clauses: Clauses,
}

impl Model for GivenBuilder {
    ghost use Rattle.std.specs.Prelude.{List, ℤ};

    ghost Value = { List (List ℤ) };

    ghost view = { λ builder. builder.clauses };
}

impl GivenBuilder {
    /// No clauses. It takes no memory.
    pub fn new(alloc: Global) -> GivenBuilder
        ensures { result ≡ [] }
    {
        GivenBuilder {
            clauses: Clauses::new(alloc),
        }
    }

    /// Adds a clause at the end. What doesn't fit 32 bits is answered as want of memory.
    pub fn push(&mut self, lits: &[Lit]) -> Result<(), AllocError>
        ensures ok { OnOk result (self.new ≡ self.old ++ lits.now ∷ []) }
        ensures err { OnErr result (self.new ≡ self.old) }
    {
        self.clauses.push(lits)?;
        Ok(())
    }

    /// The clauses, which are shared from now on, in just as much memory as they need.
    pub fn finish(self, alloc: Global) -> Result<Given, AllocError>
        ensures { IfOk result (λ given. given ≡ self) }
    {
        let GivenBuilder { mut clauses } = self;
        clauses.shrink_to_fit();
        let clauses = Arc::new(alloc, clauses)?;
        Ok(Given { clauses })
    }
}

// The literals of all clauses, and where those of each end.
#[derive(Drop)]
struct Clauses {
    lits: Vec<Lit>,
    ends: Vec<u32>,
}

impl Model for Clauses {
    ghost use Rattle.std.specs.Prelude.{List, ℤ};

    ghost Value = { List (List ℤ) };

    ghost use Rattle.lrat_steps.specs.Given.{clauses_of, IsCut};

    ghost view = { clauses_of };

    ghost invariant = { IsCut };
}

impl Clauses {
    fn new(alloc: Global) -> Clauses
        ensures { result ≡ [] }
    {
        Clauses {
            lits: Vec::new(alloc),
            ends: Vec::new(alloc),
        }
    }

    fn push(&mut self, lits: &[Lit]) -> Result<(), AllocError>
        ensures ok { OnOk result (self.new ≡ self.old ++ lits.now ∷ []) }
        ensures err { OnErr result (self.new ≡ self.old) }
    {
        let to = end_of(self.lits.len(), lits.len())?;
        let _count = end_of(self.ends.len(), 1)?;
        // Room first, so that all is as it was where there is none.
        self.ends.reserve(1)?;
        self.lits.extend_from_slice(lits)?;
        self.ends.push_reserved(to);
        Ok(())
    }

    fn shrink_to_fit(&mut self)
        ensures { self.new ≡ self.old }
    {
        self.lits.shrink_to_fit();
        self.ends.shrink_to_fit();
    }

    fn len(&self) -> u32
        ensures { result ≡ length self.now }
    {
        self.ends.len() as u32
    }

    fn lits(&self, at: u32) -> &[Lit]
        requires { at < length self.now }
        ensures { slice_get self.now at ≡ Some result.now }
    {
        let at = at as usize;
        let from = end_before(self.ends.as_slice(), at);
        let to = self.ends[at];
        &self.lits[from as usize..to as usize]
    }
}

// Where the clause before a place ends. Before the first one nothing stands.
fn end_before(ends: &[u32], at: usize) -> u32
    requires { at ≤ length ends.now }
    ensures { result ≡ slice_index_or (0 ∷ ends.now) at 0 }
{
    if at == 0 {
        return 0;
    }
    ends[at - 1]
}
