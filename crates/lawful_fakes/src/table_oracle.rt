//! An oracle that knows its answers.
ghost use Rattle.std.specs.Prelude.{◌≡◌, ◌++◌, ◌∷◌, [], ℕ, true, OnOk, IfOk, IfSome, IsSome, OnErr, List, Some, None};
ghost use Rattle.std.specs.List.{AllByRecursion};
ghost use Rattle.gm_base.specs.Sets.{IsSubset, all_groups};
ghost use Rattle.gm_base.specs.Problem.{IsClause};
ghost use Rattle.gm_base.specs.Evidence.{refutes, is_witness, with_selector};
ghost use Rattle.lrat_steps.specs.Log.{Input, learned_count};
ghost use Rattle.evidence_rec.specs.Records.{IsAcceptedAlone};
ghost use Rattle.evidence_rec.specs.Asking.{OracleState, TellsAsked, IsSpent, IsHonestOver, refuted_by, asked_once};
ghost use Rattle.lawful_fakes.specs.Table.{IsRefutation, unanswered};

use evidence_rec::{Asked, Oracle, Record, Records, Witnesses};
use gm_base::{Assign, Clause, Derivation, GroupSet, Lit, Problem, Purse, write_with_selector};
use lrat_steps::{Log, LogStep};
use std::alloc::{AllocError, Global};
use std::marker::Model;

// A set that is unsatisfiable, and why.
#[derive(Drop)]
struct Refuted {
    set: GroupSet,
    proof: Derivation,
}

/// Answers a question by the first assignment that satisfies the set, and else by the first conflict within it.
#[derive(Drop)]
pub struct TableOracle {
    problem: Problem,
    witnesses: Witnesses,
    conflicts: Records,
    whole: bool,
    log: Log,
    refuted: Option<Refuted>,
    asks: u64,
}

impl Model for TableOracle {
    ghost use Rattle.evidence_rec.specs.Asking.{OracleState};

    ghost Value = { OracleState };

    ghost use Rattle.lawful_fakes.specs.Inside.{oracle_of, IsTable};

    ghost view = { oracle_of };

    ghost invariant = { IsTable };
}

impl TableOracle {
    /// An oracle of the problem that knows these assignments and no conflict yet. With `whole` it answers that the set
    /// itself is unsatisfiable, where it could name the conflict within it.
    pub fn new(
        alloc: Global,
        problem: &Problem,
        witnesses: Witnesses,
        whole: bool,
    ) -> Result<TableOracle, AllocError>
        ensures problem { IfOk result (λ oracle. oracle.problem ≡ problem.now) }
        ensures honest { IfOk result (λ oracle. IsHonestOver problem.now oracle.log) }
        ensures nothing { IfOk result (λ oracle. learned_count oracle.log ≡ 0) }
        ensures asks { IfOk result (λ oracle. oracle.asks ≡ 0) }
    {
        let log = input_log(alloc, problem)?;
        Ok(TableOracle {
            problem: problem.copy()?,
            witnesses,
            conflicts: Records::new(alloc),
            whole,
            log,
            refuted: None,
            asks: 0,
        })
    }

    /// Tells it one more conflict.
    pub fn learn(&mut self, conflict: Record) -> Result<(), AllocError>
        requires { IsAcceptedAlone self.old.problem conflict }
        ensures { self.new ≡ self.old }
    {
        self.conflicts.push(conflict)
    }

    /// Counts a question, and answers none.
    pub(crate) fn refuse(&mut self)
        ensures state { self.new ≡ unanswered self.old }
        ensures honest { IsHonestOver self.new.problem self.new.log }
    {
        self.asks = self.asks.saturating_add(1);
        self.refuted = None;
    }

    /// How many questions there were.
    pub fn asks(&self) -> u64
        ensures { result ≡ self.now.asks }
    {
        self.asks
    }
}

impl Oracle for TableOracle {
    ghost state = { λ oracle. oracle };

    fn ask(
        &mut self,
        alloc: Global,
        set: &GroupSet,
        _turn: u64,
        _purse: &mut Purse,
    ) -> Result<Asked, AllocError> {
        // This also tells that the problem is well formed, without which no refutation would tell anything.
        let _groups = self.problem.groups();
        self.asks = self.asks.saturating_add(1);
        self.refuted = None;
        if let Some(assign) = satisfying(&self.problem, &self.witnesses, set)? {
            return Ok(Asked::Sat(assign));
        }
        let refuted = refutation_of(alloc, &self.problem, &self.conflicts, set, self.whole)?;
        let core = refuted.set.copy(alloc)?;
        self.refuted = Some(refuted);
        Ok(Asked::Unsat(core))
    }

    fn proof(&self, _alloc: Global) -> Result<Derivation, AllocError> {
        let Some(refuted) = &self.refuted else {
            unreachable!();
        };
        refuted.proof.copy()
    }

    fn into_log(self) -> Log {
        self.log
    }
}

// The first of these assignments that satisfies the background and the set.
fn satisfying(
    problem: &Problem,
    witnesses: &Witnesses,
    set: &GroupSet,
) -> Result<Option<Assign>, AllocError>
    ensures { IfOk result (λ found. IfSome found (λ w. is_witness problem.now set.now w ≡ true)) }
{
    for at in 0..witnesses.len() {
        let witness = witnesses.at(at);
        if witness.len() == problem.vars() as usize && problem.holds(set, witness) {
            return Ok(Some(witness.copy()?));
        }
    }
    Ok(None)
}

// A refutation of the set or of a part of it, by the first of these conflicts that lies within it. That none does is
// answered as want of memory.
fn refutation_of(
    alloc: Global,
    problem: &Problem,
    conflicts: &Records,
    set: &GroupSet,
    whole: bool,
) -> Result<Refuted, AllocError>
    requires { AllByRecursion (IsAcceptedAlone problem.now) conflicts.now }
    ensures { IfOk result (λ r. IsRefutation problem.now set.now r.set r.proof) }
{
    for record in conflicts.as_slice() {
        if let Some(refuted) = refuted_by(alloc, problem, record, set, whole)? {
            return Ok(refuted);
        }
    }
    Err(AllocError)
}

fn refuted_by(
    alloc: Global,
    problem: &Problem,
    record: &Record,
    set: &GroupSet,
    whole: bool,
) -> Result<Option<Refuted>, AllocError>
    requires { IsAcceptedAlone problem.now «record».now }
    ensures { IfOk result (λ found. IfSome found (λ r. IsRefutation problem.now set.now r.set r.proof)) }
{
    let _groups = set.as_slice();
    match record {
        Record::Conflict {
            set: conflict,
            proof,
            ..
        } => {
            if !conflict.is_subset(set) {
                return Ok(None);
            }
            let core = if whole { set } else { conflict };
            Ok(Some(Refuted {
                set: core.copy(alloc)?,
                proof: proof.copy()?,
            }))
        }
        Record::Correction { .. } => Ok(None),
    }
}

// The log of an oracle that has learnt nothing: the clauses of the problem, with their selectors.
fn input_log(alloc: Global, problem: &Problem) -> Result<Log, AllocError>
    ensures honest { IfOk result (IsHonestOver problem.now) }
    ensures nothing { IfOk result (λ log. learned_count log ≡ 0) }
{
    let mut log = Log::new(alloc);
    let mut lits = Vec::new(alloc);
    for at in 0..problem.len() {
        push_clause(&mut log, &mut lits, problem, problem.clause(at))?;
    }
    Ok(log)
}

// Tells the log of a clause, by way of a list that is used for each.
fn push_clause(
    log: &mut Log,
    lits: &mut Vec<Lit>,
    problem: &Problem,
    clause: &Clause,
) -> Result<(), AllocError>
    requires { IsClause problem.now.vars problem.now.groups clause.now }
    ensures { OnOk result (log.new ≡ log.old ++ Input (with_selector problem.now clause.now) ∷ []) }
{
    write_with_selector(lits, problem, clause)?;
    log.push(LogStep::Input(lits.as_slice()))?;
    Ok(())
}
