//! The first unique implication point.
//!
//! Literals of the top level are resolved with the clauses that forced their negations until one is left. It is on
//! every path from the decision to the conflict, and no nearer one is (GRASP: Marques-Silva and Sakallah 1999). Of the
//! others, those of level 0 are resolved away, too, and where that is asked for the redundant ones.
ghost use Rattle.std.specs.Prelude.{◌≡◌, ◌<◌, max, length, true, false, IfOk, OnOk, []};
ghost use Rattle.trail_book.specs.Trail.{top, IsTrail};
ghost use Rattle.learn_step.specs.Reasons.{AreReasoned, IsConflict};
ghost use Rattle.learn_step.specs.Learnt.{IsLearnt};
ghost use Rattle.learn_step.specs.Places.{level_of};
ghost use Rattle.learn_step.specs.Analysis.{IsAnalysis, IsForced, IsAboveUip, IsAtUip, AreLower, AreKept};

use crate::analysis::Analysis;
use crate::learnt::Learnt;
use crate::pending::Pending;
use crate::redundancy::Redundancy;
use clause_store::Store;
use std::alloc::{AllocError, Global};
use trail_book::Trail;

/// Learns a clause from a falsified one. `minimise` asks for it without redundant literals.
pub fn learn(
    alloc: Global,
    store: &Store,
    trail: &Trail,
    id: u64,
    minimise: bool,
) -> Result<Learnt, AllocError>
    requires vars { store.now.vars ≡ trail.now.vars }
    requires reasoned { AreReasoned store.now.clauses trail.now.entries }
    requires level { 0 < top trail.now.entries }
    requires conflict { IsConflict store.now.clauses trail.now.entries id }
    ensures { IfOk result (λ learnt. IsLearnt store.now.clauses trail.now.entries learnt.lits.items learnt.hints.items learnt.back_level) }
{
    let _vars = trail.vars();
    let mut analysis = Analysis::new(alloc);
    analysis.bring_in(store, trail, id, trail.len())?;
    to_first_uip(&mut analysis, store, trail)?;
    let back_level = keep_others(alloc, &mut analysis, store, trail, minimise)?;
    Ok(analysis.finish(back_level))
}

/// Resolves literals of the top level away until one is left, and keeps it.
fn to_first_uip(analysis: &mut Analysis, store: &Store, trail: &Trail) -> Result<(), AllocError>
    requires reasoned { AreReasoned store.now.clauses trail.now.entries }
    requires level { 0 < top trail.now.entries }
    requires above { IsAboveUip store.now.clauses trail.now.entries analysis.old.places analysis.old.lits.items analysis.old.hints.items }
    ensures { OnOk result (IsAtUip store.now.clauses trail.now.entries analysis.new.places analysis.new.lits.items analysis.new.hints.items) }
{
    let _vars = trail.vars();
    while let Some(place) = analysis.take_place(trail) {
        let stays = analysis.highest_level(trail) < trail.top();
        analysis.step(store, trail, place, stays)?;
        if stays {
            return Ok(());
        }
    }
    unreachable!()
}

/// Keeps literals above level 0 in the order of the trail, the newest first, and resolves the others away. Gives the
/// highest level of those that it keeps.
fn keep_others(
    alloc: Global,
    analysis: &mut Analysis,
    store: &Store,
    trail: &Trail,
    minimise: bool,
) -> Result<u32, AllocError>
    requires reasoned { AreReasoned store.now.clauses trail.now.entries }
    requires level { 0 < top trail.now.entries }
    requires analysis { IsAnalysis store.now.clauses trail.now.entries (length trail.now.entries) analysis.old.places analysis.old.lits.items analysis.old.hints.items }
    requires lower { AreLower trail.now.entries analysis.old.places }
    ensures analysis { OnOk result (IsAnalysis store.now.clauses trail.now.entries (length trail.now.entries) [] analysis.new.lits.items analysis.new.hints.items) }
    ensures kept { IfOk result (λ level. AreKept trail.now.entries analysis.old.lits.items [] analysis.new.lits.items level) }
{
    let _vars = trail.vars();
    let mut redundancy = Redundancy::new(alloc);
    let mut level = 0;
    while let Some(place) = analysis.take_place(trail) {
        let stays = stays_at(
            &mut redundancy,
            &analysis.places,
            store,
            trail,
            place,
            minimise,
        )?;
        if stays {
            level = higher(level, trail.level_at(place));
        }
        analysis.step(store, trail, place, stays)?;
    }
    Ok(level)
}

// The higher of two levels.
fn higher(one: u32, other: u32) -> u32
    ensures { result ≡ max one other }
{
    if one < other { other } else { one }
}

/// Whether the literal that is false at a place stays, beside those that are false at the places at hand.
fn stays_at(
    redundancy: &mut Redundancy,
    hand: &Pending,
    store: &Store,
    trail: &Trail,
    place: u32,
    minimise: bool,
) -> Result<bool, AllocError>
    requires reasoned { AreReasoned store.now.clauses trail.now.entries }
    requires in_range { place < length trail.now.entries }
    ensures stays { IfOk result (λ stays. stays ≡ true → 0 < level_of trail.now.entries place) }
    ensures goes { IfOk result (λ stays. stays ≡ false → IsForced trail.now.entries place) }
{
    if trail.level_at(place) == 0 {
        return Ok(false);
    }
    if !minimise {
        return Ok(true);
    }
    Ok(!redundancy.is_redundant(hand, store, trail, place)?)
}
