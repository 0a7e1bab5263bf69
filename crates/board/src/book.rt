//! The core as a book of the turn lock.
ghost use Rattle.std.specs.Prelude.{◌≡◌};
ghost use Rattle.map_core.specs.Own.{caller_of};
ghost use Rattle.map_core.specs.Core.{IsLegal, IsReached};
ghost use Rattle.board.specs.Turns.{MayApply, Tells};

use evidence_rec::{MapEngine, Record};
use gm_base::GroupSet;
use map_core::{Entry, MapCore, Opening, Posted, Refilled, Retirement, Taken};
use std::marker::Model;
use turn_lock::Book;

/// A call of the core, with what was used before it.
#[derive(Drop)]
pub enum Op {
    Take(u64),
    Refill(u64, GroupSet),
    Post(u64, Record),
    Retire(u64, Retirement),
}

/// What the core answers.
#[derive(Drop)]
pub enum Answer {
    Taken(Taken),
    Refilled(Refilled),
    Posted(Posted),
    Retired,
}

/// A core that its history made of its opening.
#[derive(Drop)]
pub struct CoreBook<M: MapEngine> {
    core: MapCore<M>,
}

impl<M: MapEngine> Model for CoreBook<M> {
    ghost use Rattle.map_core.specs.Core.{State, IsReached};

    ghost Value = { State };

    ghost view = { λ b. b.core };

    ghost invariant = { λ b. IsReached b.core };
}

impl<M: MapEngine> CoreBook<M> {
    pub fn new(core: MapCore<M>) -> CoreBook<M>
        requires { IsReached core }
        ensures { result ≡ core }
    {
        CoreBook { core }
    }

    pub fn into_core(self) -> MapCore<M>
        ensures { result ≡ self }
    {
        self.core
    }
}

impl<M: MapEngine> Book for CoreBook<M> {
    type Op = Op;

    type Reply = Answer;

    type Entry = Entry;

    type Opening = Opening;

    ghost opening = { λ s. s.opening };

    ghost history = { λ s. s.history };

    ghost caller = { caller_of };

    ghost legal = { IsLegal };

    ghost may = { MayApply };

    ghost tells = { λ _ _. Tells };

    fn apply(&mut self, who: u32, op: Op) -> Answer {
        match op {
            Op::Take(used) => Answer::Taken(self.core.take(who, used)),
            Op::Refill(used, asked) => Answer::Refilled(self.core.refill(who, used, asked)),
            Op::Post(used, finding) => Answer::Posted(self.core.post(who, used, finding)),
            Op::Retire(used, why) => {
                self.core.retire(who, used, why);
                Answer::Retired
            }
        }
    }
}
