//! Answers of the solver against a search over all assignments, to random clauses over four variables.
ghost use Rattle.std.specs.Prelude.{◌<◌};

use crate::solver::{add_all, ask};
use cdcl_core::Solver;
use std::alloc::{AllocError, Global};

// How many questions each solver is asked.
const ROUNDS: u32 = 16;

/// A generator of numbers (a linear congruential one, with the constants of Knuth's MMIX).
#[derive(Drop)]
pub struct Random {
    pub state: u64,
}

impl Random {
    fn below(&mut self, count: u32) -> u32
        requires { 0 < count }
        ensures { result < count }
    {
        let next = self
            .state
            .wrapping_mul(6364136223846793005)
            .wrapping_add(1442695040888963407);
        self.state = next;
        (next / 4294967296 % count as u64) as u32
    }
}

// What is added before a search, and what it assumes.
#[derive(Drop)]
struct Round {
    clause: Vec<i128>,
    assumed: Vec<i128>,
    turn: u64,
}

/// Asks a solver of four variables in each of 16 rounds, and tells how many answers were right.
pub fn agree(alloc: Global, solver: &mut Solver, random: &mut Random) -> Result<u64, AllocError> {
    let mut clauses = Vec::new(alloc);
    let mut agreed = 0u64;
    for _ in 0..ROUNDS {
        let round = random_round(alloc, random)?;
        clauses.extend_from_slice(&round.clause)?;
        let wanted = if is_satisfiable(&clauses, &round.assumed) {
            "sat"
        } else {
            "unsat"
        };
        if answer(alloc, solver, &round)? == wanted {
            agreed = agreed.saturating_add(1);
        }
    }
    Ok(agreed)
}

fn answer(alloc: Global, solver: &mut Solver, round: &Round) -> Result<&'static str, AllocError> {
    add_all(alloc, solver, &round.clause)?;
    match ask(alloc, solver, &round.assumed, round.turn, 100)? {
        Some(reply) => Ok(reply.word),
        None => Ok("not asked"),
    }
}

fn random_round(alloc: Global, random: &mut Random) -> Result<Round, AllocError> {
    let clause = random_clause(alloc, random)?;
    let count = random.below(5);
    let signs = random.below(16);
    let turn = u64::from(random.below(4));
    let assumed = assumed_by(alloc, count, signs)?;
    Ok(Round {
        clause,
        assumed,
        turn,
    })
}

// A clause of up to three literals over four variables, ended by a 0. Literals may come twice, or with their negation.
fn random_clause(alloc: Global, random: &mut Random) -> Result<Vec<i128>, AllocError> {
    let mut numbers = Vec::new(alloc);
    let len = if random.below(16) == 0 {
        random.below(3)
    } else {
        3
    };
    for _ in 0..len {
        let var = i128::from(random.below(4) + 1);
        numbers.push(if random.below(2) == 0 { var } else { -var })?;
    }
    numbers.push(0)?;
    Ok(numbers)
}

// The literals of the first variables, so many; bit i of `signs` negates that of variable i + 1.
fn assumed_by(alloc: Global, count: u32, signs: u32) -> Result<Vec<i128>, AllocError> {
    let mut numbers = Vec::new(alloc);
    let mut rest = signs;
    for i in 0..count.min(4) {
        let var = i128::from(i + 1);
        numbers.push(if rest % 2 == 1 { -var } else { var })?;
        rest /= 2;
    }
    Ok(numbers)
}

// A search over all assignments to four variables.
fn is_satisfiable(clauses: &[i128], assumed: &[i128]) -> bool {
    for bits in 0..16 {
        if makes_each_true(bits, assumed) && makes_all_true(bits, clauses) {
            return true;
        }
    }
    false
}

// Whether bit i of an assignment, for variable i + 1, makes a literal true.
fn makes_true(bits: u32, number: i128) -> bool {
    let bit = match number {
        1 | -1 => bits % 2,
        2 | -2 => bits / 2 % 2,
        3 | -3 => bits / 4 % 2,
        _ => bits / 8 % 2,
    };
    (bit == 1) == (number > 0)
}

fn makes_all_true(bits: u32, clauses: &[i128]) -> bool {
    let mut is_true = false;
    for number in clauses {
        if *number == 0 && !is_true {
            return false;
        }
        is_true = *number != 0 && (is_true || makes_true(bits, *number));
    }
    true
}

fn makes_each_true(bits: u32, assumed: &[i128]) -> bool {
    for number in assumed {
        if !makes_true(bits, *number) {
            return false;
        }
    }
    true
}
