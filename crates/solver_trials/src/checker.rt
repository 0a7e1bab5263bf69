//! The checker of steps: what each is refused for, and what is kept.
//!
//! ```text
//! checker 4                  no clauses, over four variables
//! input 1 -3                 one more clause is given, before all steps
//! checker_of 2 : 2 2 / -2    these two clauses are given, over two variables
//! step 3 -3 -4 : 1 2         the step of id 3, its literals and hints; the number of the refusal is told
//! has 3                      whether there is a clause of the id
//! begins 3                   how many literals it has, and the first one
//! inputs                     how many clauses were given
//! reserve 2 1                makes room for two steps with one literal together
//! back_to_inputs             the steps are forgotten
//! reason_number too_long     the number of a reason, here of that for a text that is too long
//! reason_name too_long       its name
//! ```
ghost use Rattle.std.specs.Prelude.{◌≡◌, ◌<◌, ◌^◌, true, length, IfOk};
ghost use Rattle.sat_base.specs.Literals.{AreLiterals};

use lrat_check::{Checked, Checker, Counts, Mismatch, Why};
use sat_base::{Hints, Lit, Lits};
use std::alloc::{AllocError, Global};
use trial_lits::{MOST, add, behind, ids_at, lits_at, tell, tell_lit, tell_number, vars_at};
use trial_script::{Player, Step};

/// A checker, and whether no step came yet.
#[derive(Drop)]
pub struct Checking {
    checker: Checker,
    is_fresh: bool,
    ghost no_steps: { is_fresh ≡ true → length checker.known ≡ checker.inputs },
}

/// The checker, once it was made.
#[derive(Drop)]
pub struct CheckerPlayer {
    pub checking: Option<Checking>,
}

impl CheckerPlayer {
    fn make(&mut self, alloc: Global, step: &Step<'_>) -> Result<bool, AllocError> {
        let Some(vars) = vars_at(step, 1) else {
            return Ok(false);
        };
        self.checking = Some(Checking {
            checker: Checker::with_vars(alloc, vars)?,
            is_fresh: true,
        });
        Ok(true)
    }

    fn make_of(&mut self, alloc: Global, step: &Step<'_>) -> Result<bool, AllocError> {
        let Some(vars) = vars_at(step, 1) else {
            return Ok(false);
        };
        let Some(first) = lits_at(alloc, step, behind(step, ":"), vars)? else {
            return Ok(false);
        };
        let Some(second) = lits_at(alloc, step, behind(step, "/"), vars)? else {
            return Ok(false);
        };
        self.checking = Some(Checking {
            checker: checker_of(alloc, vars, &first, &second)?,
            is_fresh: false,
        });
        Ok(true)
    }
}

/// A checker of two clauses.
fn checker_of(
    alloc: Global,
    vars: u32,
    first: &[Lit],
    second: &[Lit],
) -> Result<Checker, AllocError>
    requires small { vars < 2 ^ 31 }
    requires first { AreLiterals vars first.now }
    requires second { AreLiterals vars second.now }
{
    let inputs = [
        Lits::from_slice(alloc, first)?,
        Lits::from_slice(alloc, second)?,
    ];
    Checker::new(alloc, &inputs, vars)
}

impl Player for CheckerPlayer {
    fn begin(&mut self, _alloc: Global) -> Result<(), AllocError> {
        self.checking = None;
        Ok(())
    }

    fn call(
        &mut self,
        alloc: Global,
        step: &Step<'_>,
        out: &mut String,
    ) -> Result<bool, AllocError> {
        match step.word(0) {
            "checker" => return self.make(alloc, step),
            "checker_of" => return self.make_of(alloc, step),
            "reason_number" | "reason_name" => return tell_reason(step, out),
            _ => {}
        }
        match &mut self.checking {
            Some(checking) => on_checking(alloc, checking, step, out),
            None => Ok(false),
        }
    }
}

fn on_checking(
    alloc: Global,
    checking: &mut Checking,
    step: &Step<'_>,
    out: &mut String,
) -> Result<bool, AllocError> {
    if step.word(0) == "input" {
        return input(alloc, checking, step);
    }
    checking.is_fresh = false;
    let checker = &mut checking.checker;
    match step.word(0) {
        "step" => check(alloc, checker, step, out),
        "has" | "begins" => tell_clause(checker, step, out),
        "reserve" => reserve(checker, step),
        "inputs" => {
            tell_number(out, "inputs", checker.inputs())?;
            Ok(true)
        }
        "back_to_inputs" => {
            checker.back_to_inputs();
            Ok(true)
        }
        _ => Ok(false),
    }
}

fn input(alloc: Global, checking: &mut Checking, step: &Step<'_>) -> Result<bool, AllocError> {
    if !checking.is_fresh {
        return Ok(false);
    }
    let Some(lits) = lits_at(alloc, step, 1, checking.checker.vars())? else {
        return Ok(false);
    };
    checking.checker.add_input(&lits)?;
    Ok(true)
}

fn check(
    alloc: Global,
    checker: &mut Checker,
    step: &Step<'_>,
    out: &mut String,
) -> Result<bool, AllocError> {
    let Some(id) = step.amount(1) else {
        return Ok(false);
    };
    let Some(lits) = lits_at(alloc, step, 2, MOST)? else {
        return Ok(false);
    };
    let Some(hints) = ids_at(alloc, step, behind(step, ":"))? else {
        return Ok(false);
    };
    match checker.step(id, &lits, Hints::Wide(&hints))? {
        Checked::Ok => tell(out, "accepted")?,
        Checked::Refused(why) => tell_number(out, "refused", u64::from(why.number()))?,
    }
    Ok(true)
}

fn tell_clause(checker: &Checker, step: &Step<'_>, out: &mut String) -> Result<bool, AllocError> {
    let Some(id) = step.amount(1) else {
        return Ok(false);
    };
    let clause = checker.clause(id);
    if step.word(0) == "has" {
        tell(out, if clause.is_some() { "yes" } else { "no" })?;
        return Ok(true);
    }
    let Some(lits) = clause else {
        return Ok(false);
    };
    add(out, "literals", lits.len() as u64)?;
    tell_lit(out, " first", lits.first().copied())?;
    Ok(true)
}

fn reserve(checker: &mut Checker, step: &Step<'_>) -> Result<bool, AllocError> {
    let (Some(steps), Some(literals)) = (step.amount(1), step.amount(2)) else {
        return Ok(false);
    };
    checker.reserve(steps, literals)?;
    Ok(true)
}

// The reason of a name.
fn reason_of(name: &str) -> Option<Why> {
    match name {
        "other_problem" => {
            let counts = Counts {
                vars: 1,
                groups: 2,
                clauses: 3,
            };
            Some(Why::OtherProblem(Mismatch {
                text: counts,
                problem: counts,
            }))
        }
        "repeated_set" => Some(Why::RepeatedSet),
        "too_long" => Some(Why::TooLong),
        _ => None,
    }
}

fn tell_reason(step: &Step<'_>, out: &mut String) -> Result<bool, AllocError> {
    let Some(why) = reason_of(step.word(1)) else {
        return Ok(false);
    };
    if step.word(0) == "reason_name" {
        tell(out, why.name())?;
    } else {
        tell_number(out, "number", u64::from(why.number()))?;
    }
    Ok(true)
}
