//! Conflict analysis: what is learnt from a falsified clause, and from which decisions it comes.
//!
//! ```text
//! clauses 9                  no clauses and no values, over nine variables
//! add -3 4, add_idle 2       a clause comes, live or not, as in the trials of stores
//! decide 3, assign 4 4, ..   values come, as in the trials of trails; clauses and values are as they are written
//! learn 8                    what is learnt from clause 8: its literals, its hints, the level to go back to
//! minimise 8                 the same without redundant literals
//! core 8                     the negated decisions that make clause 8 false, and the hints
//! core_of -8                 those that make the assumption -8 false
//! ```
ghost use Rattle.std.specs.Prelude.{◌≡◌, ◌<◌, ◌^◌, true};
ghost use Rattle.learn_step.specs.Reasons.{AreReasoned};

use crate::reasons::{are_reasoned, is_conflict, is_origin};
use crate::store::add_clause;
use crate::trail::change;
use clause_store::Store;
use learn_step::{Learnt, Origin, core_of, learn};
use std::alloc::{AllocError, Global};
use trail_book::Trail;
use trial_lits::{add_ids, add_lits, lit_at, tell_number, vars_at};
use trial_script::{Player, Step, hold, known};

/// Clauses and values, as somebody wrote them.
#[derive(Drop)]
pub struct Scene {
    store: Store,
    trail: Trail,
}

impl Scene {
    /// No clauses and no values.
    fn new(alloc: Global, vars: u32) -> Result<Scene, AllocError>
        requires { vars < 2 ^ 31 }
    {
        let store = Store::new(alloc, vars)?;
        let trail = Trail::new(alloc, vars)?;
        Ok(Scene { store, trail })
    }
}

/// The scene, once it was made.
#[derive(Drop)]
pub struct LearningPlayer {
    pub scene: Option<Scene>,
}

impl LearningPlayer {
    fn make(&mut self, alloc: Global, step: &Step<'_>) -> Result<bool, AllocError> {
        match vars_at(step, 1) {
            Some(vars) => hold(&mut self.scene, Scene::new(alloc, vars)),
            None => Ok(false),
        }
    }
}

impl Player for LearningPlayer {
    fn begin(&mut self, _alloc: Global) -> Result<(), AllocError> {
        self.scene = None;
        Ok(())
    }

    fn call(
        &mut self,
        alloc: Global,
        step: &Step<'_>,
        out: &mut String,
    ) -> Result<bool, AllocError> {
        if step.word(0) == "clauses" {
            return self.make(alloc, step);
        }
        match &mut self.scene {
            Some(scene) => on_scene(alloc, scene, step, out),
            None => Ok(false),
        }
    }
}

fn on_scene(
    alloc: Global,
    scene: &mut Scene,
    step: &Step<'_>,
    out: &mut String,
) -> Result<bool, AllocError> {
    let Scene { store, trail } = scene;
    match step.word(0) {
        "add" => add_clause(alloc, store, step, out, true),
        "add_idle" => add_clause(alloc, store, step, out, false),
        "learn" | "minimise" => tell_learnt(alloc, store, trail, step, out),
        "core" | "core_of" => tell_core(alloc, store, trail, step, out),
        _ => Ok(change(trail, step)),
    }
}

fn tell_learnt(
    alloc: Global,
    store: &Store,
    trail: &Trail,
    step: &Step<'_>,
    out: &mut String,
) -> Result<bool, AllocError> {
    let Some(id) = step.amount(1) else {
        return Ok(false);
    };
    if trail.top() == 0 || !fit(store, trail) || !is_conflict(store, trail, id) {
        return Ok(false);
    }
    let minimise = step.word(0) == "minimise";
    tell_clause(learn(alloc, store, trail, id, minimise), out)
}

fn tell_core(
    alloc: Global,
    store: &Store,
    trail: &Trail,
    step: &Step<'_>,
    out: &mut String,
) -> Result<bool, AllocError> {
    let Some(origin) = origin_at(trail, step) else {
        return Ok(false);
    };
    if !fit(store, trail) || !is_origin(store, trail, &origin) {
        return Ok(false);
    }
    tell_clause(core_of(alloc, store, trail, origin), out)
}

// Whether both are over the same variables, and each value has a clause that forced it.
fn fit(store: &Store, trail: &Trail) -> bool
    ensures vars { result ≡ true → store.now.vars ≡ trail.now.vars }
    ensures reasoned { result ≡ true → AreReasoned store.now.clauses trail.now.entries }
{
    store.vars() == trail.vars() && are_reasoned(store, trail)
}

fn origin_at(trail: &Trail, step: &Step<'_>) -> Option<Origin> {
    if step.word(0) == "core" {
        step.amount(1).map(Origin::Conflict)
    } else {
        lit_at(step, 1, trail.vars()).map(Origin::Assumption)
    }
}

fn tell_clause(learnt: Result<Learnt, AllocError>, out: &mut String) -> Result<bool, AllocError> {
    let learnt = learnt?;
    add_row(&learnt, out)?;
    known(tell_number(out, " back to", u64::from(learnt.back_level)))
}

fn add_row(learnt: &Learnt, out: &mut String) -> Result<(), AllocError> {
    out.push_str("clause")?;
    add_lits(out, &learnt.lits)?;
    out.push_str(" hints")?;
    add_ids(out, learnt.hints.as_slice())
}
