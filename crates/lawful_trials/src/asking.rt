//! Moves of an oracle:
//!
//! | move | what it does, and what is printed |
//! |---|---|
//! | `ask 1 2` | asks about a set: `sat`, `unsat` with the core, `dry` or `no memory`; then how many questions the oracle at the bottom was asked so far |
//! | `ask 1 2 : 1 : 2` | the same, but of the core only whether it holds one of the sets behind the first `:`: `unsat, one held` |
//! | `ask-without 9 : 1 2` | asks about a set without a group, as shrinking does |
//! | `shrink 1 2 3`, `grow 1` | asks about a set, and shrinks the core of the answer to a conflict, or grows the set from its assignment to a correction: what is found |
//! | `grow-down 1` | asks about a set, and grows it from above: what is found |
//! | `asked` | how many questions there were so far |
//! | `proof` | the clause that was derived for the last core |
//! | `purse 3`, `left` | puts so many units into the purse, 100 at first; prints how many are left |
//! | `inputs`, `learnt`, `steps` | at the end: what its log has |
//!
//! An assignment is tried on the set before `sat` is printed, and a core has to lie in the set and its proof to derive a
//! clause that is new.
ghost use Rattle.std.specs.Prelude.{◌≡◌, true, IfOk, Some};
ghost use Rattle.gm_base.specs.Sets.{IsSubset, all_groups};
ghost use Rattle.gm_base.specs.Problem.{Sat};
ghost use Rattle.gm_base.specs.Evidence.{is_witness};
ghost use Rattle.evidence_rec.specs.Asking.{OracleState, refuted_by};

use evidence_rec::{Asked, Oracle, Record};
use gm_base::{Assign, Derivation, GroupSet, Kind, Problem, Purse};
use group_oracle::GroupOracle;
use known_sets::KnownSets;
use lawful_fakes::{Lacking, TableOracle};
use lrat_steps::Log;
use mss_grow::{Grown, grow, grow_down};
use mus_shrink::{Shrunk, shrink_keeping};
use std::alloc::{AllocError, Global};
use trial_script::Step;
use trial_sets::{
    Mover, Played, add_numbers, lines_of, make_moves, number_at, numbers_in, parts_in, played,
    say_count, say_log, say_proof, set_in,
};

/// An oracle that tells how many questions there were.
pub trait Counted: Oracle {
    /// How many questions it was asked, or the one within it.
    fn asked(&self) -> u64;
}

impl Counted for TableOracle {
    fn asked(&self) -> u64 {
        self.asks()
    }
}

impl Counted for GroupOracle {
    fn asked(&self) -> u64 {
        self.asks()
    }
}

impl<O: Counted> Counted for KnownSets<O> {
    fn asked(&self) -> u64 {
        self.within().asked()
    }
}

/// Asks an oracle of this problem.
struct Asker<'a, O: Counted> {
    oracle: O,
    problem: &'a Problem,
    purse: Purse,
    // Of the last core.
    proof: Option<Derivation>,
    ghost of: { (O.state oracle).problem ≡ problem.now },
}

/// Makes the moves of a call with an oracle, and tells of its log in the end. It is given up before anything else ends the
/// call, so that no proof has to drop one.
pub fn talk<O: Counted>(
    alloc: Global,
    oracle: O,
    problem: &Problem,
    step: &Step<'_>,
    out: &mut String,
) -> Played
    requires { (O.state oracle).problem ≡ problem.now }
{
    let mut asker = Asker {
        oracle,
        problem,
        purse: Purse { left: 100 },
        proof: None,
    };
    let made = make_moves(alloc, &mut asker, step, out);
    let Asker {
        oracle,
        problem: _,
        purse: _,
        proof: _,
    } = asker;
    let log = oracle.into_log();
    end(made, &log, step, out)
}

/// Tells of the log that is left, once the moves were made.
pub fn end(made: Result<(), AllocError>, log: &Log, step: &Step<'_>, out: &mut String) -> Played {
    made?;
    played(say_log(log, lines_of(step), out))
}

impl<O: Counted> Mover for Asker<'_, O> {
    fn make_move(&mut self, alloc: Global, step: &Step<'_>, out: &mut String) -> Played {
        match step.word(0) {
            "ask" => self.ask(alloc, step, out),
            "ask-without" => self.ask_without(alloc, step, out),
            "shrink" | "grow" => self.explore(alloc, step, out),
            "grow-down" => self.explore_from_above(alloc, step, out),
            "proof" => self.tell_proof(alloc, out),
            "purse" => self.fill(alloc, step),
            "asked" => played(say_count(out, "asked", self.oracle.asked())),
            "left" => played(say_count(out, "left", self.purse.left)),
            _ => Err(Lacking::Evidence),
        }
    }
}

impl<O: Counted> Asker<'_, O> {
    fn ask(&mut self, alloc: Global, step: &Step<'_>, out: &mut String) -> Played {
        let set = set_in(alloc, step, 0, self.problem.groups())?;
        let answer = self.oracle.ask(alloc, &set, 0, &mut self.purse);
        self.tell(alloc, &set, &answer, step, out)
    }

    fn fill(&mut self, alloc: Global, step: &Step<'_>) -> Played {
        self.purse.left = u64::from(number_at(alloc, step, 0, 0)?);
        Ok(())
    }

    fn ask_without(&mut self, alloc: Global, step: &Step<'_>, out: &mut String) -> Played {
        let group = number_at(alloc, step, 0, 0)?;
        let set = set_in(alloc, step, 1, self.problem.groups())?;
        let rest = set.without(alloc, group)?;
        let answer = self
            .oracle
            .ask_without(alloc, &set, group, 0, &mut self.purse);
        self.tell(alloc, &rest, &answer, step, out)
    }

    /// Tells an answer about a set, and how many questions there were.
    fn tell(
        &mut self,
        alloc: Global,
        set: &GroupSet,
        answer: &Result<Asked, AllocError>,
        step: &Step<'_>,
        out: &mut String,
    ) -> Played
        requires { IfOk answer.now (λ asked. (O.state self.old.oracle).refuted ≡ refuted_by asked) }
    {
        self.tell_answer(alloc, set, answer, step, out)?;
        self.tell_asked(out)
    }

    fn tell_answer(
        &mut self,
        alloc: Global,
        set: &GroupSet,
        answer: &Result<Asked, AllocError>,
        step: &Step<'_>,
        out: &mut String,
    ) -> Played
        requires { IfOk answer.now (λ asked. (O.state self.old.oracle).refuted ≡ refuted_by asked) }
    {
        match answer {
            Ok(Asked::Sat(assign)) => played(out.push_str(self.sat_word(set, assign))),
            Ok(Asked::Unsat(core)) => self.tell_unsat(alloc, set, core, step, out),
            Ok(Asked::Dry) => played(out.push_str("dry")),
            Err(AllocError) => played(out.push_str("no memory")),
        }
    }

    fn tell_unsat(
        &mut self,
        alloc: Global,
        set: &GroupSet,
        core: &GroupSet,
        step: &Step<'_>,
        out: &mut String,
    ) -> Played
        requires { (O.state self.old.oracle).refuted ≡ Some core.now }
    {
        let word = self.unsat_word(alloc, set, core)?;
        out.push_str(word)?;
        tell_core(alloc, step, core, out)
    }

    /// Whether the assignment satisfies the set.
    fn sat_word(&self, set: &GroupSet, assign: &Assign) -> &'static str {
        let fits = assign.len() == self.problem.vars() as usize;
        if fits && self.problem.holds(set, assign) {
            "sat"
        } else {
            "wrong"
        }
    }

    /// Whether the core lies in the set. Its proof is kept.
    fn unsat_word(
        &mut self,
        alloc: Global,
        set: &GroupSet,
        core: &GroupSet,
    ) -> Result<&'static str, AllocError>
        requires { (O.state self.old.oracle).refuted ≡ Some core.now }
    {
        let proof = self.oracle.proof(alloc)?;
        let fits = core.is_subset(set) && proof.len() > 0;
        self.proof = Some(proof);
        Ok(if fits { "unsat" } else { "wrong" })
    }

    /// Ends a line with the count of questions.
    fn tell_asked(&self, out: &mut String) -> Played {
        played(say_count(out, ", asked", self.oracle.asked()))
    }

    fn tell_proof(&self, alloc: Global, out: &mut String) -> Played {
        match &self.proof {
            Some(proof) => played(say_proof(alloc, out, proof, self.problem.len())),
            None => Err(Lacking::Evidence),
        }
    }

    /// Asks about a set, and shrinks or grows it. The groups of a second part are tried last.
    fn explore(&mut self, alloc: Global, step: &Step<'_>, out: &mut String) -> Played {
        let set = set_in(alloc, step, 0, self.problem.groups())?;
        let last = set_in(alloc, step, 1, self.problem.groups())?;
        self.find(alloc, &set, &last, out)?;
        self.tell_asked(out)
    }

    /// Asks about a set, and grows it from above.
    fn explore_from_above(&mut self, alloc: Global, step: &Step<'_>, out: &mut String) -> Played {
        let set = set_in(alloc, step, 0, self.problem.groups())?;
        match self.oracle.ask(alloc, &set, 0, &mut self.purse)? {
            Asked::Sat(_assign) => self.grow_down(alloc, &set, out)?,
            Asked::Unsat(_) => out.push_str("unsat")?,
            Asked::Dry => out.push_str("dry")?,
        }
        self.tell_asked(out)
    }

    /// Tells what a set is shrunk or grown to, or why it isn't.
    fn find(
        &mut self,
        alloc: Global,
        set: &GroupSet,
        last: &GroupSet,
        out: &mut String,
    ) -> Result<(), AllocError>
        requires { IsSubset set.now (all_groups self.old.problem.now.groups) }
    {
        match self.oracle.ask(alloc, set, 0, &mut self.purse) {
            Ok(Asked::Unsat(core)) => self.shrink(alloc, &core, last, out),
            Ok(Asked::Sat(assign)) => self.grow(alloc, set, &assign, out),
            Ok(Asked::Dry) => out.push_str("dry"),
            Err(AllocError) => out.push_str("no memory"),
        }
    }

    /// Tells the conflict that the last core is shrunk to.
    fn shrink(
        &mut self,
        alloc: Global,
        core: &GroupSet,
        last: &GroupSet,
        out: &mut String,
    ) -> Result<(), AllocError>
        requires refuted { (O.state self.old.oracle).refuted ≡ Some core.now }
        requires within { IsSubset core.now (all_groups self.old.problem.now.groups) }
    {
        let oracle = &mut self.oracle;
        match shrink_keeping(alloc, oracle, self.problem, core, last, 0, &mut self.purse) {
            Ok(Shrunk::Done(record)) => tell_record(&record, out),
            Ok(Shrunk::Dry(_)) => out.push_str("dry"),
            Err(AllocError) => out.push_str("no memory"),
        }
    }

    /// Tells the correction of what the set is grown to from an assignment.
    fn grow(
        &mut self,
        alloc: Global,
        set: &GroupSet,
        assign: &Assign,
        out: &mut String,
    ) -> Result<(), AllocError>
        requires within { IsSubset set.now (all_groups self.old.problem.now.groups) }
        requires satisfied { is_witness self.old.problem.now set.now assign.now ≡ true }
    {
        let oracle = &mut self.oracle;
        let grown = grow(alloc, oracle, self.problem, set, assign, 0, &mut self.purse);
        tell_grown(&grown, out)
    }

    /// Tells the correction of what the satisfiable set is grown to from above.
    fn grow_down(
        &mut self,
        alloc: Global,
        set: &GroupSet,
        out: &mut String,
    ) -> Result<(), AllocError>
        requires within { IsSubset set.now (all_groups self.old.problem.now.groups) }
        requires satisfiable { Sat self.old.problem.now set.now }
    {
        let oracle = &mut self.oracle;
        let grown = grow_down(alloc, oracle, self.problem, set, 0, &mut self.purse);
        tell_grown(&grown, out)
    }
}

/// Adds what a set is grown to, or why it isn't.
fn tell_grown(grown: &Result<Grown, AllocError>, out: &mut String) -> Result<(), AllocError> {
    match grown {
        Ok(Grown::Done(record)) => tell_record(record, out),
        Ok(Grown::Dry(asked)) => {
            out.push_str("dry")?;
            add_numbers(out, asked.as_slice())
        }
        Err(AllocError) => out.push_str("no memory"),
    }
}

/// Adds the kind and the set of a record.
fn tell_record(record: &Record, out: &mut String) -> Result<(), AllocError> {
    let kind = match record.kind() {
        Kind::Conflict => "conflict",
        Kind::Correction => "correction",
    };
    out.push_str(kind)?;
    add_numbers(out, record.set().as_slice())
}

/// Adds a core to a line: its groups, or whether it holds one of the sets that the question names.
fn tell_core(alloc: Global, step: &Step<'_>, core: &GroupSet, out: &mut String) -> Played {
    if parts_in(step) < 2 || step.word(0) != "ask" {
        return played(add_numbers(out, core.as_slice()));
    }
    let word = if holds_one(alloc, step, core)? {
        ", one held"
    } else {
        ", none held"
    };
    played(out.push_str(word))
}

/// Whether a core holds one of the sets behind the first part.
fn holds_one(alloc: Global, step: &Step<'_>, core: &GroupSet) -> Result<bool, Lacking> {
    for part in 1..parts_in(step) {
        if holds_part(alloc, step, part, core)? {
            return Ok(true);
        }
    }
    Ok(false)
}

/// Whether a core holds the set in a part.
fn holds_part(
    alloc: Global,
    step: &Step<'_>,
    part: usize,
    core: &GroupSet,
) -> Result<bool, Lacking> {
    let wanted = numbers_in(alloc, step, part)?;
    Ok(wanted.iter().all(|group| core.contains(*group)))
}
