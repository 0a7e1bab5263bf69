//! Decisions.
//!
//! Where nothing is left to propagate, the assumed literals are decided in their order, and then touched variables without
//! value: those of the plan, if one is followed (`plan.rt`), and then in the order that the turn began, as each was last held
//! (Pipatsrisawat and Darwiche 2007), or positive where that is asked for. Where none of those left was ever in a conflict,
//! one order is as good as another, and the plan is followed again, which costs no heap. Which assumed literals are true is
//! not asked again for each decision: the search remembers how far they all are, and forgets it only where it goes back
//! below them.
//!
//! What has no value at the end is true where choices are positive, so that the model is a greatest one, and false otherwise.
//! Touched are the variables that stand in a clause against this default. One that no clause has, or only so that its default
//! makes the clause true, as a selector that nobody assumes, is decided by nobody. So a search costs what the clauses that have
//! come ask for.
ghost use Rattle.std.specs.Prelude.{◌≡◌, ◌⊎◌, ℕ, ◌+◌, ◌<◌, ℤ, pos, length, take, true, false, IfOk, IfSome, IfNone, slice_index_or};
ghost use Rattle.sat_base.specs.Members.{In};
ghost use Rattle.sat_base.specs.Literals.{AreLiterals, IsLiteral, literal_true};
ghost use Rattle.sat_base.specs.Units.{AllTrue, IsFixpoint, IsUnset, HasValue};
ghost use Rattle.trail_book.specs.Trail.{trues, IsTouched};
ghost use Rattle.trail_book.specs.Order.{IsPositive};
ghost use Rattle.lrat_steps.specs.Log.{inputs_of};
ghost use Rattle.cdcl_core.specs.State.{AreTouched};
ghost use Rattle.cdcl_core.specs.Answers.{IsConsistent, IsHonestlyPaid};
ghost use Rattle.cdcl_core.specs.Search.{IsSearch, IsRound, IsNext};

use crate::plan::Plan;
use crate::search::Search;
use crate::solved::Solved;
use learn_step::Origin;
use sat_base::{Assign, AssignBuilder, Lit};
use std::alloc::{AllocError, Global};
use trail_book::Trail;

/// What is to be done where nothing is left to propagate.
#[derive(Clone, Copy)]
pub enum Next {
    /// To decide this assumed literal.
    Assume(Lit),
    /// To give up, since this assumed literal is false.
    Failed(Lit),
    /// To decide this literal, since all assumed ones are true.
    Choose(Lit),
    /// To answer, since each touched variable has a value.
    Full,
}

// A touched literal without value: of the plan, or as it was last held; a positive one where that is asked for.
fn choice(trail: &mut Trail, plan: &mut Plan, true_first: bool) -> Option<Lit>
    ensures some { IfSome result (λ lit. IsUnset (trues trail.old.entries) lit × IsLiteral trail.old.vars lit) }
    ensures touched { IfSome result (IsTouched trail.old.touched) }
    ensures positive { IfSome result (λ lit. true_first ≡ true → IsPositive lit) }
    ensures none { IfNone result ((lit : ℤ) → IsLiteral trail.old.vars lit → IsTouched trail.old.touched lit → HasValue (trues trail.old.entries) lit) }
    ensures same { trail.new ≡ trail.old }
{
    if let Some(lit) = plan.next(trail, true_first) {
        return Some(lit);
    }
    if true_first {
        return trail.pick_true();
    }
    let lit = trail.pick()?;
    if trail.activity(lit.var()) > 0 {
        return Some(lit);
    }
    plan.resume();
    match plan.next(trail, true_first) {
        Some(planned) => Some(planned),
        None => Some(lit),
    }
}

// Moves over the assumed literals that are true, from place `reached` on.
fn next_decision(
    trail: &mut Trail,
    assumed: &[Lit],
    reached: &mut usize,
    plan: &mut Plan,
    true_first: bool,
) -> Next
    requires literals { AreLiterals trail.old.vars assumed.now }
    requires reached { AllTrue (trues trail.old.entries) (take reached.old assumed.now) }
    ensures next { IsNext true_first trail.old.vars trail.old.touched assumed.now (trues trail.old.entries) result }
    ensures reached { AllTrue (trues trail.old.entries) (take reached.new assumed.now) }
    ensures same { trail.new ≡ trail.old }
{
    while *reached < assumed.len() {
        let lit = assumed[*reached];
        match trail.value(lit) {
            None => {
                return Next::Assume(lit);
            }
            Some(false) => {
                return Next::Failed(lit);
            }
            Some(true) => {
                *reached += 1;
            }
        }
    }
    match choice(trail, plan, true_first) {
        Some(lit) => Next::Choose(lit),
        None => Next::Full,
    }
}

// The assignment that gives each of so many variables this value.
fn uniform(alloc: Global, vars: u32, value: bool) -> Result<AssignBuilder, AllocError>
    ensures len { IfOk result (λ builder. length builder ≡ vars) }
    ensures values { IfOk result (λ builder. (index : ℕ) → index < vars → slice_index_or builder index false ≡ value) }
{
    let mut builder = AssignBuilder::all_false(alloc, vars)?;
    if !value {
        return Ok(builder);
    }
    for index in 0..vars {
        builder.set(index + 1, true);
    }
    Ok(builder)
}

// The values of the trail, and this one where there is none.
fn assignment(alloc: Global, trail: &Trail, other: bool) -> Result<Assign, AllocError>
    ensures len { IfOk result (λ assign. length assign ≡ trail.now.vars) }
    ensures values { IfOk result (λ assign. (lit : ℤ) → In lit (trues trail.now.entries) → literal_true assign lit ≡ true) }
    ensures others { IfOk result (λ assign. (index : ℕ) → index < trail.now.vars → HasValue (trues trail.now.entries) (pos (index + 1)) ⊎ (slice_index_or assign index false ≡ other)) }
{
    let mut builder = uniform(alloc, trail.vars(), other)?;
    for place in 0..trail.len() {
        let lit = trail.at(place);
        builder.set(lit.var(), lit.is_positive());
    }
    builder.finish(alloc)
}

impl Search {
    /// Decides the next assumed literal, or else a touched variable without value; ends where there is none, or where an
    /// assumed literal is false.
    pub fn on_fixpoint(
        &mut self,
        alloc: Global,
        assumed: &[Lit],
    ) -> Result<Option<Solved>, AllocError>
        requires search { IsSearch self.old assumed.now }
        requires fixpoint { IsFixpoint self.old.store.clauses (trues self.old.trail.entries) }
        requires all_done { self.old.trail.done ≡ length self.old.trail.entries }
        requires literals { AreLiterals self.old.trail.vars assumed.now }
        requires consistent { IsConsistent assumed.now }
        requires touched { AreTouched self.old.true_first self.old.trail.touched (inputs_of self.old.log) }
        ensures round { IfOk result (λ answer. (left : ℕ) → IsRound self.old self.new assumed.now left left answer) }
        ensures paid { (left : ℕ) → IsHonestlyPaid self.old.log self.new.log left left }
        ensures vars { self.new.trail.vars ≡ self.old.trail.vars }
        ensures touched { self.new.trail.touched ≡ self.old.trail.touched }
        ensures true_first { self.new.true_first ≡ self.old.true_first }
    {
        match next_decision(
            &mut self.trail,
            assumed,
            &mut self.assumed_true,
            &mut self.plan,
            self.true_first,
        ) {
            Next::Assume(lit) => {
                self.trail.decide(lit);
                self.assumed_levels = self.trail.top();
                Ok(None)
            }
            Next::Failed(lit) => {
                let core = self.refute(alloc, assumed, Origin::Assumption(lit))?;
                Ok(Some(Solved::Unsat(core)))
            }
            Next::Choose(lit) => {
                self.trail.decide(lit);
                Ok(None)
            }
            Next::Full => {
                self.plan.end(&self.trail, self.true_first);
                let assign = assignment(alloc, &self.trail, self.true_first)?;
                Ok(Some(Solved::Sat(assign)))
            }
        }
    }
}
