//! Steps that others may keep.
//!
//! A log of steps is long, and what is derived from it names many of them. So the steps stand in blocks, each behind a shared
//! pointer: whoever takes a step holds its block, and no literal is copied. Steps are added to the last block, until that one is
//! full or somebody holds it; then another one is begun. So what was handed out never changes.
ghost use Rattle.std.specs.Prelude.{◌≡◌, ◌≤◌, ◌<◌, [], ◌∷◌, ◌++◌, All, Some, IfOk, IfSome, IfNone, OnOk, OnErr, IsTrue, IsFalse, length, map, slice_get};
ghost use Rattle.std.specs.Arc.{arc_value};
ghost use Rattle.sat_base.specs.Derivation.{max_id};
ghost use Rattle.sat_base.specs.Hints.{kept_ids, ids_of};
ghost use Rattle.sat_base.specs.Blocks.{IsPlaced};

use crate::arena::end_of;
use crate::lit::Lit;
use crate::steps::{KeptStep, Step, Steps};
use std::alloc::{AllocError, Global};
use std::marker::Model;
use std::sync::Arc;

// How many steps a block has at most.
const MOST: usize = 256;

/// A step of an arena, which may be kept when the arena is gone.
#[derive(Drop)]
pub struct SharedStep {
    block: Arc<Steps, Global>,
    at: u32,
}

impl Model for SharedStep {
    ghost use Rattle.std.specs.Prelude.{◌<◌, length, slice_index_or};
    ghost use Rattle.std.specs.Arc.{arc_value};
    ghost use Rattle.sat_base.specs.Derivation.{Step};
    ghost use Rattle.sat_base.specs.Blocks.{no_step};

    ghost Value = { Step };

    ghost view = { λ step. slice_index_or (arc_value step.block) step.at no_step };

    ghost invariant = { λ step. step.at < length (arc_value step.block) };
}

impl SharedStep {
    pub(crate) fn kept(&self) -> KeptStep<'_>
        ensures { self.now ≡ record { id = result.id; lits = result.lits.now; hints = kept_ids result.ids } }
    {
        self.block.kept(self.at as usize)
    }
}

// In which block a step stands, and at which place there.
#[derive(Clone, Copy)]
struct Place {
    block: u32,
    at: u32,
}

/// Steps in the order in which they were added.
#[derive(Drop)]
pub struct StepArena {
    alloc: Global,
    blocks: Vec<Arc<Steps, Global>>,
    places: Vec<Place>,
}

impl Model for StepArena {
    ghost use Rattle.std.specs.Prelude.{List};
    ghost use Rattle.sat_base.specs.Derivation.{Step};

    ghost Value = { List Step };

    ghost use Rattle.sat_base.specs.Blocks.{steps_in, ArePlaced};

    ghost view = { steps_in };

    ghost invariant = { ArePlaced };
}

impl StepArena {
    /// No steps. It takes no memory.
    pub fn new(alloc: Global) -> StepArena
        ensures { result ≡ [] }
    {
        StepArena {
            alloc,
            blocks: Vec::new(alloc),
            places: Vec::new(alloc),
        }
    }

    /// Adds a step at the end. What doesn't fit is answered as want of memory.
    pub fn push(&mut self, id: u64, lits: &[Lit], hints: &[u64]) -> Result<(), AllocError>
        requires id { id ≤ max_id }
        requires hints { All (λ h. h ≤ max_id) hints.now }
        ensures ok { OnOk result (self.new ≡ self.old ++ record { id = id; lits = lits.now; hints = hints.now } ∷ []) }
        ensures err { OnErr result (self.new ≡ self.old) }
    {
        // Room first, so that all is as it was where there is none.
        self.places.reserve(1)?;
        let place = place_step(self.alloc, &mut self.blocks, id, lits, hints)?;
        self.places.push_reserved(place);
        Ok(())
    }

    pub fn len(&self) -> usize
        ensures { result ≡ length self.now }
    {
        self.places.len()
    }

    /// The step at a place, from 0.
    pub fn step(&self, at: usize) -> Step<'_>
        requires { at < length self.now }
        ensures { slice_get self.now at ≡ Some (record { id = result.id; lits = result.lits.now; hints = ids_of result.hints }) }
    {
        let place = self.places[at];
        self.blocks[place.block as usize].step(place.at as usize)
    }

    /// The step at a place, from 0, to be kept. It takes no memory, and fails where its block is held 2^63 times already.
    pub fn share(&self, at: usize) -> Result<SharedStep, AllocError>
        requires { at < length self.now }
        ensures { IfOk result (λ step. slice_get self.now at ≡ Some step) }
    {
        let place = self.places[at];
        let block = Arc::try_clone(&self.blocks[place.block as usize])?;
        Ok(SharedStep {
            block,
            at: place.at,
        })
    }
}

// Adds a step to the last block, or to a new one behind it, and says where it stands.
fn place_step(
    alloc: Global,
    blocks: &mut Vec<Arc<Steps, Global>>,
    id: u64,
    lits: &[Lit],
    hints: &[u64],
) -> Result<Place, AllocError>
    requires id { id ≤ max_id }
    requires hints { All (λ h. h ≤ max_id) hints.now }
    ensures ok { IfOk result (λ place. IsPlaced (map (λ b. arc_value b) blocks.old.items) (map (λ b. arc_value b) blocks.new.items) place (record { id = id; lits = lits.now; hints = hints.now })) }
    ensures err { OnErr result (map (λ b. arc_value b) blocks.new.items ≡ map (λ b. arc_value b) blocks.old.items) }
{
    if let Some(place) = extend_last(blocks, id, lits, hints)? {
        return Ok(place);
    }
    let block = end_of(blocks.len(), 0)?;
    blocks.reserve(1)?;
    let steps = block_of(alloc, id, lits, hints)?;
    blocks.push_reserved(steps);
    Ok(Place { block, at: 0 })
}

// Adds a step to the last block, if there is one that is not full and that nobody else holds, and says where it stands.
fn extend_last(
    blocks: &mut Vec<Arc<Steps, Global>>,
    id: u64,
    lits: &[Lit],
    hints: &[u64],
) -> Result<Option<Place>, AllocError>
    requires id { id ≤ max_id }
    requires hints { All (λ h. h ≤ max_id) hints.now }
    ensures ok { IfOk result (λ found. IfSome found (λ place. IsPlaced (map (λ b. arc_value b) blocks.old.items) (map (λ b. arc_value b) blocks.new.items) place (record { id = id; lits = lits.now; hints = hints.now }))) }
    ensures none { IfOk result (λ found. IfNone found (map (λ b. arc_value b) blocks.new.items ≡ map (λ b. arc_value b) blocks.old.items)) }
    ensures err { OnErr result (map (λ b. arc_value b) blocks.new.items ≡ map (λ b. arc_value b) blocks.old.items) }
{
    let count = end_of(blocks.len(), 0)?;
    if count == 0 {
        return Ok(None);
    }
    let last = (count - 1) as usize;
    let at = blocks[last].len();
    if at >= MOST {
        return Ok(None);
    }
    if !push_alone(&mut blocks[last], id, lits, hints)? {
        return Ok(None);
    }
    Ok(Some(Place {
        block: count - 1,
        at: at as u32,
    }))
}

// Adds a step to a block that nobody else holds, and says whether it is such a block.
fn push_alone(
    block: &mut Arc<Steps, Global>,
    id: u64,
    lits: &[Lit],
    hints: &[u64],
) -> Result<bool, AllocError>
    requires id { id ≤ max_id }
    requires hints { All (λ h. h ≤ max_id) hints.now }
    ensures added { IfOk result (λ added. IsTrue added → arc_value block.new ≡ arc_value block.old ++ record { id = id; lits = lits.now; hints = hints.now } ∷ []) }
    ensures held { IfOk result (λ added. IsFalse added → arc_value block.new ≡ arc_value block.old) }
    ensures err { OnErr result (arc_value block.new ≡ arc_value block.old) }
{
    let Some(steps) = Arc::get_mut(block) else {
        return Ok(false);
    };
    steps.push(id, lits, hints)?;
    // A full one keeps no spare room.
    if steps.len() >= MOST {
        steps.shrink_to_fit();
    }
    Ok(true)
}

// A block of one step.
fn block_of(
    alloc: Global,
    id: u64,
    lits: &[Lit],
    hints: &[u64],
) -> Result<Arc<Steps, Global>, AllocError>
    requires id { id ≤ max_id }
    requires hints { All (λ h. h ≤ max_id) hints.now }
    ensures { IfOk result (λ block. arc_value block ≡ record { id = id; lits = lits.now; hints = hints.now } ∷ []) }
{
    let mut steps = Steps::new(alloc);
    steps.push(id, lits, hints)?;
    let block = Arc::new(alloc, steps)?;
    Ok(block)
}
