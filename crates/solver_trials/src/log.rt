//! Logs: the steps of a solver, and derivations that hold only what their goal needs.
//!
//! ```text
//! log                        no steps
//! input 1 2                  a clause that is given; the id of the step is told
//! learned 1 : 1 2            a learnt clause and its hints
//! core : 3 4 6               the core of an answer and its hints
//! worked                     the worked log below
//! forget 3                   learnt clause 3 is live no more; only where no other one was forgotten
//! counts                     how many steps, inputs and learnt clauses
//! live                       how many learnt clauses are live
//! step 5                     what the step is, how many literals it has, and its hints
//! trim 8                     the derivation that step 8 of the worked log needs
//! may_forget 2001 0          whether one may be forgotten, of so many live ones of so many learnt
//! ```
//!
//! That a log is honest can't be told by looking at it in a few lines. So what is trimmed is one log that is proved so:
//! "x or y", "x or not y" and so "x"; "not x or y" and so "y"; "not x or not y" and so the empty clause, twice.
ghost use Rattle.std.specs.Prelude.{◌≡◌, ◌<◌, ◌≤◌, [], length, IfOk, OnOk};
ghost use Rattle.lrat_steps.specs.Rows.{worked_log};
ghost use Rattle.lrat_steps.specs.Log.{steps_of};

use lrat_steps::{Log, LogStep, StepKind, may_forget};
use sat_base::{Derivation, Hints, Lit};
use std::alloc::{AllocError, Global};
use trial_lits::{MOST, add, add_lits, behind, ids_at, lits_at, tell, tell_number};
use trial_script::{Player, Step};

/// A log.
#[derive(Drop)]
pub struct LogPlayer {
    log: Log,
}

impl LogPlayer {
    pub fn new(alloc: Global) -> LogPlayer {
        LogPlayer {
            log: Log::new(alloc),
        }
    }
}

impl Player for LogPlayer {
    fn begin(&mut self, alloc: Global) -> Result<(), AllocError> {
        self.log = Log::new(alloc);
        Ok(())
    }

    fn call(
        &mut self,
        alloc: Global,
        step: &Step<'_>,
        out: &mut String,
    ) -> Result<bool, AllocError> {
        match step.word(0) {
            "log" => self.log = Log::new(alloc),
            "worked" => self.log = worked(alloc)?,
            "trim" => return trim(alloc, step, out),
            "may_forget" => return tell_may_forget(step, out),
            "forget" => return forget(&mut self.log, step),
            "counts" => counts(&self.log, out)?,
            "live" => tell_number(out, "live", self.log.live_learned())?,
            "step" => return tell_step(&self.log, step, out),
            _ => return push(alloc, &mut self.log, step, out),
        }
        Ok(true)
    }
}

fn push(
    alloc: Global,
    log: &mut Log,
    step: &Step<'_>,
    out: &mut String,
) -> Result<bool, AllocError> {
    let Some(kind) = kind_named(step.word(0)) else {
        return Ok(false);
    };
    let Some(lits) = lits_at(alloc, step, 1, MOST)? else {
        return Ok(false);
    };
    let Some(hints) = ids_at(alloc, step, behind(step, ":"))? else {
        return Ok(false);
    };
    let id = log.push(match kind {
        StepKind::Input => LogStep::Input(&lits),
        StepKind::Learned => LogStep::Learned(&lits, &hints),
        StepKind::Core => LogStep::Core(&lits, &hints),
    })?;
    tell_number(out, "id", id)?;
    Ok(true)
}

fn kind_named(name: &str) -> Option<StepKind> {
    match name {
        "input" => Some(StepKind::Input),
        "learned" => Some(StepKind::Learned),
        "core" => Some(StepKind::Core),
        _ => None,
    }
}

fn worked(alloc: Global) -> Result<Log, AllocError>
    ensures { IfOk result (λ log. log ≡ worked_log) }
{
    let mut log = Log::new(alloc);
    push_worked(&mut log)?;
    Ok(log)
}

fn push_worked(log: &mut Log) -> Result<(), AllocError>
    requires { log.old ≡ [] }
    ensures { OnOk result (log.new ≡ worked_log) }
{
    let x = Lit::new(1);
    let y = Lit::new(2);
    log.push(LogStep::Input(&[x, y]))?;
    log.push(LogStep::Input(&[x, y.negated()]))?;
    log.push(LogStep::Learned(&[x], &[1, 2]))?;
    log.push(LogStep::Input(&[x.negated(), y]))?;
    log.push(LogStep::Learned(&[y], &[3, 4]))?;
    log.push(LogStep::Input(&[x.negated(), y.negated()]))?;
    log.push(LogStep::Core(&[], &[3, 4, 6]))?;
    log.push(LogStep::Core(&[], &[3, 5, 6]))?;
    Ok(())
}

// Marks that a learnt clause is live no more. Where all learnt clauses are live, so is this one.
fn forget(log: &mut Log, step: &Step<'_>) -> Result<bool, AllocError> {
    let Some(id) = step.amount(1) else {
        return Ok(false);
    };
    if id == 0 || id > log.len() || log.live_learned() != log.learned() {
        return Ok(false);
    }
    match log.kind(id) {
        StepKind::Learned => log.forget(id)?,
        _ => return Ok(false),
    }
    Ok(true)
}

fn trim(alloc: Global, step: &Step<'_>, out: &mut String) -> Result<bool, AllocError> {
    let Some(goal) = step.amount(1) else {
        return Ok(false);
    };
    let log = worked(alloc)?;
    if goal == 0 || goal > log.len() {
        return Ok(false);
    }
    let derivation = log.trim(alloc, goal)?;
    tell_derivation(&derivation, out)?;
    Ok(true)
}

fn tell_derivation(derivation: &Derivation, out: &mut String) -> Result<(), AllocError> {
    tell_number(out, "goal", derivation.goal())?;
    for at in 0..derivation.len() {
        let step = derivation.step(at);
        add(out, "step", step.id)?;
        out.push_str(" :")?;
        add_lits(out, step.lits)?;
        out.push_str(" :")?;
        add_hints(out, step.hints)?;
        out.push_str("\n")?;
    }
    Ok(())
}

fn add_hints(out: &mut String, hints: Hints<'_>) -> Result<(), AllocError> {
    for at in 0..hints.len() {
        add(out, "", hints.at(at))?;
    }
    Ok(())
}

fn tell_may_forget(step: &Step<'_>, out: &mut String) -> Result<bool, AllocError> {
    let (Some(live), Some(learned)) = (step.amount(1), step.amount(2)) else {
        return Ok(false);
    };
    tell(
        out,
        if may_forget(live, learned) {
            "yes"
        } else {
            "no"
        },
    )?;
    Ok(true)
}

fn counts(log: &Log, out: &mut String) -> Result<(), AllocError> {
    add(out, "steps", log.len())?;
    add(out, " inputs", log.inputs())?;
    tell_number(out, " learnt", log.learned())
}

fn tell_step(log: &Log, step: &Step<'_>, out: &mut String) -> Result<bool, AllocError> {
    let Some(id) = step.amount(1) else {
        return Ok(false);
    };
    if id == 0 || id > log.len() {
        return Ok(false);
    }
    out.push_str(match log.kind(id) {
        StepKind::Input => "input",
        StepKind::Learned => "learned",
        StepKind::Core => "core",
    })?;
    add(out, " literals", log.lits(id).len() as u64)?;
    out.push_str(" hints")?;
    add_hints(out, log.hints(id))?;
    out.push_str("\n")?;
    Ok(true)
}
