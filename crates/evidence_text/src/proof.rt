//! Steps and their goal.
ghost use Rattle.std.specs.Prelude.{◌≡◌, ◌<◌, ◌≤◌, ◌^◌, All, IfOk, IfSome, OnOk, length};
ghost use Rattle.sat_base.specs.Derivation.{max_id};
ghost use Rattle.evidence_text.specs.Cursors.{left_of, rest_of, Gives, GivesStep, proof_of};

use crate::fields::{read_goal, read_step};
use crate::goal::Goal;
use crate::lines::Lines;
use crate::offence::{Stop, on_line, refusal};
use crate::words::first_word;
use gm_base::{Derivation, DerivationBuilder, Lit};
use lrat_check::Why;
use std::alloc::Global;

/// Steps, and the line of their goal, which stands behind them.
pub(crate) fn read_proof(
    alloc: Global,
    lines: &mut Lines<'_>,
    vars: u32,
    goal: Goal,
) -> Result<Derivation, Stop>
    requires { vars < 2 ^ 31 }
    ensures proof { Gives (λ d. d) result (left_of lines.new) (proof_of vars goal (left_of lines.old)) }
    ensures rest { OnOk result (rest_of lines.new ≡ rest_of lines.old) }
{
    let mut proof = DerivationBuilder::new(alloc, 0);
    let mut aim = 0;
    let mut lits = Vec::new(alloc);
    let mut hints = Vec::new(alloc);
    while let Some(id) = read_proof_line(lines, vars, goal, &mut aim, &mut lits, &mut hints)? {
        proof.push(id, lits.as_slice(), hints.as_slice())?;
    }
    proof.aim_at(aim);
    let proof = proof.finish(alloc)?;
    Ok(proof)
}

/// The id of the next step, with its literals and its hints, or none behind the line of the goal, with the goal's id.
#[tactic(auto, unfolding(crate::specs::Reading::proof_at))]
fn read_proof_line(
    lines: &mut Lines<'_>,
    vars: u32,
    goal: Goal,
    aim: &mut u64,
    lits: &mut Vec<Lit>,
    hints: &mut Vec<u64>,
) -> Result<Option<u64>, Stop>
    requires { vars < 2 ^ 31 }
    ensures line { GivesStep vars goal result aim.new lits.new.items hints.new.items (left_of lines.old) (left_of lines.new) }
    ensures aim { aim.old ≤ max_id → aim.new ≤ max_id }
    ensures shorter { OnOk result (length lines.new.rest.now < length lines.old.rest.now) }
    ensures id { IfOk result (λ o. IfSome o (λ id. id ≤ max_id)) }
    ensures hints { IfOk result (λ o. IfSome o (λ _. All (λ h. h ≤ max_id) hints.new.items)) }
    ensures rest { OnOk result (rest_of lines.new ≡ rest_of lines.old) }
{
    let at = lines.at;
    let Some(line) = lines.next() else {
        return Err(refusal(at, Why::Truncated));
    };
    let (letter, words) = first_word(line);
    if letter == b'd' {
        return match read_step(words, vars, lits, hints) {
            Ok(id) => Ok(Some(id)),
            Err(halt) => Err(on_line(at, halt)),
        };
    }
    if letter != goal.letter() {
        return Err(refusal(at, Why::BadLine));
    }
    match read_goal(words, goal) {
        Ok(id) => {
            *aim = id;
            Ok(None)
        }
        Err(why) => Err(refusal(at, why)),
    }
}
