//! What a take is answered.
ghost use Rattle.std.specs.Prelude.{◌≡◌, ◌≢◌, ◌+◌, ◌<◌, ◌≤◌, ◌^◌, [], List, ℕ, Bool, Some, None, false, true, length, vec_len, vec_capacity, IfOk};
ghost use Rattle.gm_base.specs.Explored.{Found, AllExplored};
ghost use Rattle.lrat_steps.specs.Log.{db_of, learned_count};
ghost use Rattle.lrat_steps.specs.Undecided.{Undecided};
ghost use Rattle.evidence_rec.specs.Seeding.{IsSeed, IsHonestMap, shows_all_explored};
ghost use Rattle.map_core.specs.Core.{TakesAsked};
ghost use Rattle.map_core.specs.Asked.{IsSettled, IsAnswered, GivesProof};
ghost use Rattle.map_core.specs.Own.{engine_part};
ghost use Rattle.map_core.specs.Replies.{take_reply};
ghost use Rattle.map_core.specs.declared.entry.Reply.TheVariants.{Dry};

use crate::entry::{Entry, Reply};
use crate::replies::Taken;
use crate::turn::Turn;
use evidence_rec::{MapEngine, Seed};
use gm_base::{CompactSet, Derivation, GroupSet, Purse};
use std::alloc::{AllocError, Global};

/// The reply, for the worker and for the history, with what else a take changes.
#[derive(Drop)]
pub struct TakeAnswer {
    pub turn: Turn,
    /// What the engine used, where it was asked.
    pub engine: Option<u64>,
    pub reply: Taken,
    pub kept: Reply,
    /// That each set is explored, where that is new.
    pub proof: Option<Derivation>,
}

/// The most that a take grants.
const FIRST_GRANT: u64 = 1000;

fn answer(turn: Turn, engine: Option<u64>, reply: Taken, kept: Reply) -> TakeAnswer
    ensures { result ≡ record { turn = turn; engine = engine; reply = reply; kept = kept; proof = None } }
{
    TakeAnswer {
        turn,
        engine,
        reply,
        kept,
        proof: None,
    }
}

// The job of a seed for which the engine used so much.
fn job(alloc: Global, number: u64, turn: Turn, used: u64, seed: GroupSet) -> TakeAnswer
    requires settled { IsSettled turn }
    requires within { used ≤ turn.common.available }
    ensures takes { (tops : Bool) (groups : ℕ) (found : List Found) → IsSeed tops groups found seed → TakesAsked tops groups found number turn used result.kept result.turn }
    ensures reply { take_reply result.reply ≡ result.kept }
    ensures engine { result.engine ≡ Some used }
    ensures exhausted { result.turn.common.exhausted ≡ turn.common.exhausted }
    ensures proof { result.proof ≡ None }
    ensures not_dry { result.kept ≢ Dry }
{
    let spent = turn.spend(used);
    let Ok(compact) = CompactSet::of(alloc, &seed) else {
        return answer(spent.retire(), Some(used), Taken::Memory, Reply::Memory);
    };
    let grant = spent.common.available.min(FIRST_GRANT);
    let reply = Taken::Job {
        turn: number,
        seed,
        grant,
    };
    let kept = Reply::Job {
        turn: number,
        seed: compact,
        grant,
    };
    answer(spent.grant(grant), Some(used), reply, kept)
}

// The answer where each set is explored, and the engine used so much.
fn exhausted(turn: Turn, used: u64, proof: Result<Derivation, AllocError>) -> TakeAnswer
    requires settled { IsSettled turn }
    requires within { used ≤ turn.common.available }
    ensures takes { (tops : Bool) (groups number : ℕ) (found : List Found) → AllExplored groups found → TakesAsked tops groups found number turn used result.kept result.turn }
    ensures reply { take_reply result.reply ≡ result.kept }
    ensures engine { result.engine ≡ Some used }
    ensures proof { (groups : ℕ) (found : List Found) → IfOk proof (λ d. shows_all_explored groups found d ≡ true) → GivesProof groups found turn result.turn result.proof }
    ensures not_dry { result.kept ≢ Dry }
{
    let spent = turn.spend(used);
    match proof {
        Ok(proof) => TakeAnswer {
            turn: spent.mark_exhausted().end(),
            engine: Some(used),
            reply: Taken::Exhausted,
            kept: Reply::Exhausted,
            proof: Some(proof),
        },
        Err(AllocError) => answer(spent.retire(), Some(used), Taken::Memory, Reply::Memory),
    }
}

// What the engine finds, and what the worker is granted for it.
#[tactic(auto, using(crate::proofs::Searched::used_learned))]
fn find<M: MapEngine>(alloc: Global, engine: &mut M, number: u64, turn: Turn) -> TakeAnswer
    requires settled { IsSettled turn }
    requires not_stopped { turn.common.stopped ≡ false }
    requires not_exhausted { turn.common.exhausted ≡ false }
    ensures answered { IsAnswered M.TOPS (M.state engine.old) false false number turn result }
    ensures groups { (M.state engine.new).groups ≡ (M.state engine.old).groups }
    ensures same_blocks { (M.state engine.new).blocks ≡ (M.state engine.old).blocks }
    ensures learned { learned_count (M.state engine.new).log ≡ learned_count (M.state engine.old).log + engine_part result.engine }
    ensures honest { IsHonestMap (M.state engine.new).blocks (M.state engine.new).log }
    ensures dry { result.kept ≡ Dry → Undecided (db_of (M.state engine.new).log) [] }
{
    let mut purse = Purse {
        left: turn.common.available,
    };
    let found = engine.seed(alloc, number, &mut purse);
    let used = turn.common.available - purse.left;
    match found {
        Ok(Seed::Set(seed)) => job(alloc, number, turn, used, seed),
        Ok(Seed::Empty) => exhausted(turn, used, engine.empty_proof(alloc)),
        Ok(Seed::Dry) => answer(turn.spend(used).end(), Some(used), Taken::Dry, Reply::Dry),
        Err(AllocError) => answer(
            turn.spend(used).retire(),
            Some(used),
            Taken::Memory,
            Reply::Memory,
        ),
    }
}

/// What a take is answered, with room for the worker's own retirement where it goes on.
pub fn ask<M: MapEngine>(
    alloc: Global,
    engine: &mut M,
    history: &mut Vec<Entry>,
    workers: usize,
    told: bool,
    full: bool,
    turn: Turn,
) -> TakeAnswer
    requires settled { IsSettled turn }
    requires few { workers < 2 ^ 32 }
    requires short { length history.old.items < 2 ^ 63 }
    ensures answered { IsAnswered M.TOPS (M.state engine.old) told full (length history.old.items + 1) turn result }
    ensures groups { (M.state engine.new).groups ≡ (M.state engine.old).groups }
    ensures same_blocks { (M.state engine.new).blocks ≡ (M.state engine.old).blocks }
    ensures learned { learned_count (M.state engine.new).log ≡ learned_count (M.state engine.old).log + engine_part result.engine }
    ensures honest { IsHonestMap (M.state engine.old).blocks (M.state engine.old).log → IsHonestMap (M.state engine.new).blocks (M.state engine.new).log }
    ensures dry { result.kept ≡ Dry → Undecided (db_of (M.state engine.new).log) [] }
    ensures history { history.new.items ≡ history.old.items }
    ensures capacity { vec_capacity history.old ≤ vec_capacity history.new }
    ensures room { result.turn.worker.ended ≡ false → vec_len history.new + (workers + 1) ≤ vec_capacity history.new }
{
    if turn.common.stopped {
        return answer(turn.end(), None, Taken::Stopped, Reply::Stopped);
    }
    if turn.common.exhausted {
        return answer(turn.end(), None, Taken::Exhausted, Reply::Exhausted);
    }
    if told {
        return answer(
            turn.mark_settled().end(),
            None,
            Taken::Settled,
            Reply::Settled,
        );
    }
    if full {
        return answer(turn.mark_limited().end(), None, Taken::Limit, Reply::Limit);
    }
    if let Err(AllocError) = history.reserve(workers + 1) {
        return answer(turn.retire(), None, Taken::Memory, Reply::Memory);
    }
    let number = history.len() as u64 + 1;
    find(alloc, engine, number, turn)
}
