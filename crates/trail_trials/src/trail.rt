//! Trails: which literals are true, since when and why, and which is decided next.
//!
//! ```text
//! trail 4                    a new trail over four variables
//! untouched 4                the same, but no variable is touched
//! touch 2 3                  decisions are made on 2 and 3 from now on
//! decide 2                   2 is true at a new level
//! assign -3 7                -3 is true by clause 7
//! unit 3 11                  the value of 3 has unit step 11
//! back_to 1                  the levels above 1 are taken back
//! start_at 2                 variables of equal activity go round from this turn
//! bump 3 3 2                 each of these is bumped, and later ones count more
//! rounds 2000 4 1 3 2        so often, and tells whether an activity ever fell
//! decide_all                 decides what is picked, until nothing is left
//! pick, pick_true            the literal to be decided next
//! full                       whether each touched variable has a value
//! show                       the level, and which literals are true, the oldest first
//! reasons                    the clauses that forced them
//! len, top, done, newest     how many there are, the level, how many were propagated, the last one
//! value 3                    the value of a literal
//! var 3, place 1             what is kept of the variable, and of the literal at the place
//! open 2 : -1 2 64           a literal of these but 2 that is not false, by the trail's words
//! ```
ghost use Rattle.std.specs.Prelude.{◌≡◌, ◌<◌, ◌^◌, IfSome};
ghost use Rattle.sat_base.specs.Literals.{IsLiteral};
ghost use Rattle.sat_base.specs.Units.{IsUnset};
ghost use Rattle.trail_book.specs.Trail.{trues};

use crate::words::words_at;
use sat_base::Lit;
use std::alloc::{AllocError, Global};
use trail_book::Trail;
use trial_lits::{
    add_id, add_lit, behind, lit_at, tell, tell_id, tell_lit, tell_number, var_at, vars_at,
};
use trial_script::{Player, Step, hold, known, show};

/// A trail, once one was made.
#[derive(Drop)]
pub struct TrailPlayer {
    pub trail: Option<Trail>,
}

impl TrailPlayer {
    fn make(&mut self, alloc: Global, step: &Step<'_>) -> Result<bool, AllocError> {
        match vars_at(step, 1) {
            Some(vars) => hold(&mut self.trail, Trail::new(alloc, vars)),
            None => Ok(false),
        }
    }

    fn make_untouched(&mut self, alloc: Global, step: &Step<'_>) -> Result<bool, AllocError> {
        match vars_at(step, 1) {
            Some(vars) => hold(&mut self.trail, Trail::untouched(alloc, vars)),
            None => Ok(false),
        }
    }

    fn go_on(
        &mut self,
        alloc: Global,
        step: &Step<'_>,
        out: &mut String,
    ) -> Result<bool, AllocError> {
        match &mut self.trail {
            Some(trail) => on_trail(alloc, trail, step, out),
            None => Ok(false),
        }
    }
}

impl Player for TrailPlayer {
    fn begin(&mut self, _alloc: Global) -> Result<(), AllocError> {
        self.trail = None;
        Ok(())
    }

    fn call(
        &mut self,
        alloc: Global,
        step: &Step<'_>,
        out: &mut String,
    ) -> Result<bool, AllocError> {
        match step.word(0) {
            "trail" => self.make(alloc, step),
            "untouched" => self.make_untouched(alloc, step),
            _ => self.go_on(alloc, step, out),
        }
    }
}

fn on_trail(
    alloc: Global,
    trail: &mut Trail,
    step: &Step<'_>,
    out: &mut String,
) -> Result<bool, AllocError> {
    match step.word(0) {
        "open" => open(alloc, trail, step, out),
        "touch" => touch(alloc, trail, step),
        "bump" => bump(alloc, trail, step),
        "rounds" => rounds(alloc, trail, step, out),
        "decide_all" => decide_all(trail, out),
        "pick" => tell_pick(out, trail.pick()),
        "pick_true" => tell_pick(out, trail.pick_true()),
        "var" => tell_var(trail, step, out),
        "place" => tell_place(trail, step, out),
        _ if change(trail, step) => Ok(true),
        _ => read(trail, step, out),
    }
}

/// Changes the trail, where the call says how and its condition holds.
pub fn change(trail: &mut Trail, step: &Step<'_>) -> bool
    ensures { trail.new.vars ≡ trail.old.vars }
{
    match step.word(0) {
        "decide" => decide(trail, step),
        "assign" => assign(trail, step),
        "unit" => set_unit(trail, step),
        "back_to" => back_to(trail, step),
        "start_at" => start_at(trail, step),
        _ => false,
    }
}

fn back_to(trail: &mut Trail, step: &Step<'_>) -> bool
    ensures { trail.new.vars ≡ trail.old.vars }
{
    let Some(level) = step.count(1) else {
        return false;
    };
    trail.back_to(level);
    true
}

fn start_at(trail: &mut Trail, step: &Step<'_>) -> bool
    ensures { trail.new.vars ≡ trail.old.vars }
{
    let Some(turn) = step.amount(1) else {
        return false;
    };
    trail.start_at(turn);
    true
}

// The literal at the first place of a call, where it has no value.
fn unset(trail: &Trail, step: &Step<'_>) -> Option<Lit>
    ensures unset { IfSome result (λ lit. IsUnset (trues trail.now.entries) lit) }
    ensures literal { IfSome result (λ lit. IsLiteral trail.now.vars lit) }
{
    match lit_at(step, 1, trail.vars()) {
        Some(lit) if trail.value(lit).is_none() => Some(lit),
        _ => None,
    }
}

fn decide(trail: &mut Trail, step: &Step<'_>) -> bool
    ensures { trail.new.vars ≡ trail.old.vars }
{
    let Some(lit) = unset(trail, step) else {
        return false;
    };
    trail.decide(lit);
    true
}

// The id at the second place of a call.
fn id_at_2(step: &Step<'_>) -> Option<u64>
    ensures { IfSome result (λ id. 0 < id) }
{
    match step.amount(2) {
        Some(id) if id > 0 => Some(id),
        _ => None,
    }
}

fn assign(trail: &mut Trail, step: &Step<'_>) -> bool
    ensures { trail.new.vars ≡ trail.old.vars }
{
    let (Some(lit), Some(reason)) = (unset(trail, step), id_at_2(step)) else {
        return false;
    };
    trail.assign(lit, reason);
    true
}

fn set_unit(trail: &mut Trail, step: &Step<'_>) -> bool
    ensures { trail.new.vars ≡ trail.old.vars }
{
    let (Some(var), Some(id)) = (var_at(step, 1, trail.vars()), id_at_2(step)) else {
        return false;
    };
    if trail.value(Lit::new(var as i32)).is_none() {
        return false;
    }
    trail.set_unit(var, id);
    true
}

fn touch_all(trail: &mut Trail, vars: &[i128]) {
    for number in vars {
        let Ok(var) = u32::try_from(*number) else {
            return;
        };
        if var > 0 && var <= trail.vars() {
            trail.touch(var);
        }
    }
}

fn touch(alloc: Global, trail: &mut Trail, step: &Step<'_>) -> Result<bool, AllocError> {
    match step.numbers(alloc, 1)? {
        Some(vars) => {
            touch_all(trail, &vars);
            Ok(true)
        }
        None => Ok(false),
    }
}

// Bumps the variables in their order, and after each lets later bumps count more.
fn bump_all(trail: &mut Trail, vars: &[i128]) {
    for number in vars {
        let Ok(var) = u32::try_from(*number) else {
            return;
        };
        if var > 0 && var <= trail.vars() {
            trail.bump(var);
            trail.grow();
        }
    }
}

fn bump(alloc: Global, trail: &mut Trail, step: &Step<'_>) -> Result<bool, AllocError> {
    match step.numbers(alloc, 1)? {
        Some(vars) => {
            bump_all(trail, &vars);
            Ok(true)
        }
        None => Ok(false),
    }
}

fn activity(trail: &Trail, var: u32) -> u64 {
    if var == 0 || var > trail.vars() {
        return 0;
    }
    trail.activity(var)
}

// Bumps the variables so often, and tells whether the activity of one fell, of each of the first four in its turn.
fn rounds(
    alloc: Global,
    trail: &mut Trail,
    step: &Step<'_>,
    out: &mut String,
) -> Result<bool, AllocError> {
    let Some(count) = step.count(1) else {
        return Ok(false);
    };
    match step.numbers(alloc, 2)? {
        Some(vars) => known(tell(out, go_rounds(trail, count, &vars))),
        None => Ok(false),
    }
}

fn go_rounds(trail: &mut Trail, count: u32, vars: &[i128]) -> &'static str {
    let mut fell = false;
    for round in 0..count {
        let before = activity(trail, round % 4 + 1);
        bump_all(trail, vars);
        if activity(trail, round % 4 + 1) < before {
            fell = true;
        }
    }
    if fell {
        "activities were halved"
    } else {
        "activities rose"
    }
}

fn decide_all(trail: &mut Trail, out: &mut String) -> Result<bool, AllocError> {
    out.push_str("decided")?;
    for _ in 0..trail.vars() {
        let Some(lit) = trail.pick() else {
            break;
        };
        trail.decide(lit);
        add_lit(out, "", Some(lit))?;
    }
    show("", out)
}

fn tell_pick(out: &mut String, lit: Option<Lit>) -> Result<bool, AllocError> {
    known(tell_lit(out, "pick", lit))
}

/// Tells what is kept of the whole trail, or of a literal.
pub fn read(trail: &Trail, step: &Step<'_>, out: &mut String) -> Result<bool, AllocError> {
    known(match step.word(0) {
        "len" => tell_number(out, "len", u64::from(trail.len())),
        "top" => tell_number(out, "top", u64::from(trail.top())),
        "done" => tell_number(out, "done", u64::from(trail.done())),
        "full" => tell(out, if trail.is_full() { "full" } else { "not full" }),
        "show" => tell_trail(trail, out),
        "reasons" => tell_reasons(trail, out),
        "newest" => tell_lit(out, "newest", newest(trail)),
        _ => return read_lit(trail, step, out),
    })
}

fn tell_trail(trail: &Trail, out: &mut String) -> Result<(), AllocError> {
    let level = trail.top();
    write!(out, "level {level} :")?;
    for place in 0..trail.len() {
        add_lit(out, "", Some(trail.at(place)))?;
    }
    out.push_str("\n")
}

fn tell_reasons(trail: &Trail, out: &mut String) -> Result<(), AllocError> {
    out.push_str("reasons")?;
    for place in 0..trail.len() {
        add_id(out, "", trail.entry(place).reason)?;
    }
    out.push_str("\n")
}

fn newest(trail: &Trail) -> Option<Lit> {
    let len = trail.len();
    if len == 0 {
        None
    } else {
        Some(trail.at(len - 1))
    }
}

fn read_lit(trail: &Trail, step: &Step<'_>, out: &mut String) -> Result<bool, AllocError> {
    if step.word(0) != "value" {
        return Ok(false);
    }
    match lit_at(step, 1, trail.vars()) {
        Some(lit) => known(tell(out, value_word(trail.value(lit)))),
        None => Ok(false),
    }
}

fn value_word(value: Option<bool>) -> &'static str {
    match value {
        Some(true) => "true",
        Some(false) => "false",
        None => "no value",
    }
}

fn tell_var(trail: &Trail, step: &Step<'_>, out: &mut String) -> Result<bool, AllocError> {
    let Some(var) = var_at(step, 1, trail.vars()) else {
        return Ok(false);
    };
    let value = trail.value(Lit::new(var as i32));
    let word = value_word(value);
    if value.is_none() {
        return show(word, out);
    }
    let place = trail.place(var);
    let level = trail.level(var);
    write!(out, "{word} place {place} level {level}")?;
    tell_causes(trail.reason(var), trail.unit(var), out)
}

// Ends a line with the clause that made a literal true, and its unit step.
fn tell_causes(
    reason: Option<u64>,
    unit: Option<u64>,
    out: &mut String,
) -> Result<bool, AllocError> {
    add_id(out, " reason", reason)?;
    known(tell_id(out, " unit", unit))
}

fn tell_place(trail: &Trail, step: &Step<'_>, out: &mut String) -> Result<bool, AllocError> {
    let Some(place) = step.count(1) else {
        return Ok(false);
    };
    if place >= trail.len() {
        return Ok(false);
    }
    let entry = trail.entry(place);
    let lit = trail.at(place).number();
    let entered = entry.lit.number();
    let level = trail.level_at(place);
    write!(out, "literal {lit} entry {entered} level {level}")?;
    tell_causes(entry.reason, entry.unit, out)
}

fn open(
    alloc: Global,
    trail: &Trail,
    step: &Step<'_>,
    out: &mut String,
) -> Result<bool, AllocError> {
    let Some(other) = lit_at(step, 1, 64) else {
        return Ok(false);
    };
    let Some(clause) = words_at(alloc, step, behind(step, ":"))? else {
        return Ok(false);
    };
    known(match trail.true_words() {
        Some(trues) => tell_lit(out, "open", clause.open(trues, other)),
        None => tell(out, "no words"),
    })
}
