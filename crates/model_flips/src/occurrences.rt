//! Which clauses have a literal.
use gm_base::{Lit, Problem};
use std::alloc::{AllocError, Global};

/// Of each literal the places of the clauses that have it, one after another.
#[derive(Drop)]
pub struct Occurrences {
    // Where the places of a literal begin; they end where those of the next literal do.
    starts: Vec<u32>,
    places: Vec<u32>,
}

impl Occurrences {
    pub fn new(alloc: Global, problem: &Problem) -> Result<Occurrences, AllocError> {
        let mut starts = vec![in alloc; 0; 2 * (problem.vars() as usize) + 3]?;
        for at in 0..problem.len() {
            count(&mut starts, problem.clause(at).lits.as_slice());
        }
        let total = add_up(&mut starts);
        let mut places = vec![in alloc; 0; total as usize]?;
        for at in 0..problem.len() {
            let Ok(place) = u32::try_from(at) else {
                return Err(AllocError);
            };
            enter(
                &mut starts,
                &mut places,
                problem.clause(at).lits.as_slice(),
                place,
            );
        }
        Ok(Occurrences { starts, places })
    }

    /// How many literals all clauses have.
    pub fn total(&self) -> usize {
        self.places.len()
    }

    /// The clauses that a variable makes true by this value, each once for each time that it has the literal.
    pub fn made_true_by(&self, var: u32, value: bool) -> &[u32] {
        let code = code_of(var, value);
        let (Some(from), Some(to)) = (
            self.starts.get(code),
            self.starts.get(code.saturating_add(1)),
        ) else {
            return &[];
        };
        match self.places.get(*from as usize..*to as usize) {
            Some(places) => places,
            None => &[],
        }
    }
}

// The number of the literal that a value of a variable makes true.
fn code_of(var: u32, value: bool) -> usize {
    2 * (var as usize) + if value { 0 } else { 1 }
}

fn count(counts: &mut [u32], lits: &[Lit]) {
    for lit in lits {
        let code = code_of(lit.var(), lit.is_positive());
        if code < counts.len() {
            counts[code] = counts[code].saturating_add(1);
        }
    }
}

// From how many places a literal has to where they end.
fn add_up(counts: &mut [u32]) -> u32 {
    let mut sum = 0u32;
    for at in 0..counts.len() {
        sum = sum.saturating_add(counts[at]);
        counts[at] = sum;
    }
    sum
}

// Enters a clause under its literals, each in front of what was entered before.
fn enter(starts: &mut [u32], places: &mut [u32], lits: &[Lit], place: u32) {
    for lit in lits {
        let code = code_of(lit.var(), lit.is_positive());
        if code < starts.len() {
            let at = starts[code].saturating_sub(1);
            starts[code] = at;
            write(places, at as usize, place);
        }
    }
}

fn write(places: &mut [u32], at: usize, place: u32) {
    if at < places.len() {
        places[at] = place;
    }
}
