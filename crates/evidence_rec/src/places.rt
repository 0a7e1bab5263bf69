//! Lists of places, as bits of words.
//!
//! The places of a list ascend, and 32 that lie side by side share a word: bit i of the block `at` says that the place
//! 32·at + i is listed. A block takes eight bytes, and there is one only where a place of it is listed. So what two lists
//! share is seen 32 places at a time. The block `at` is mostly found without a search: a list that lacks no block before it
//! has it at the place `at`, and one that lacks none behind it as far from its end.
ghost use Rattle.std.specs.Prelude.{◌≡◌, ◌≢◌, ℕ, true, false, not, ◌&&◌, ◌+◌, ◌*◌, ◌<◌, ◌++◌, ◌∷◌, [], IsTrue, IfSome, IfNone, OnOk, OnErr};
ghost use Rattle.gm_base.specs.Sets.{has};
ghost use Rattle.evidence_rec.specs.Columns.{is_set};
ghost use Rattle.evidence_rec.specs.Places.{block_places, places_of, Ascend, IsAt, HasNone};

use std::alloc::{AllocError, Global};
use std::marker::Model;

/// How many places share a block.
const WIDTH: u32 = 32;

/// Which of 32 places are listed, those from 32·`at` on.
#[derive(Clone, Copy)]
pub struct Block {
    pub at: u32,
    pub bits: u32,
}

/// Ascending places.
#[derive(Drop)]
pub struct PlaceList {
    blocks: Vec<Block>,
}

impl Model for PlaceList {
    ghost use Rattle.std.specs.Prelude.{List, ℕ};
    ghost use Rattle.evidence_rec.specs.Places.{places_of, Ascend};

    ghost Value = { List ℕ };

    ghost view = { λ list. places_of list.blocks.items };

    ghost invariant = { λ list. Ascend list.blocks.items };
}

impl PlaceList {
    /// No places. It takes no memory.
    pub fn new(alloc: Global) -> PlaceList
        ensures { result ≡ [] }
    {
        PlaceList {
            blocks: Vec::new(alloc),
        }
    }

    /// Its blocks.
    pub fn blocks(&self) -> &[Block]
        ensures { places_of result.now ≡ self.now }
    {
        self.blocks.as_slice()
    }

    /// Which of the 32 places from 32·`at` on are listed.
    pub fn bits_at(&self, at: u32) -> u32
        ensures { (i : ℕ) → i < 32 → is_set result i ≡ has self.now (32 * at + i) }
    {
        bits_at(self.blocks.as_slice(), at)
    }

    /// Adds a place at the end. One that is not above all others finds no room.
    pub fn add(&mut self, place: u32) -> Result<(), AllocError>
        ensures ok { OnOk result (self.new ≡ self.old ++ place ∷ []) }
        ensures err { OnErr result (self.new ≡ self.old) }
    {
        add_bit(&mut self.blocks, place / WIDTH, place % WIDTH)
    }
}

// Adds the place of this bit of the block `at`, behind all others.
fn add_bit(blocks: &mut Vec<Block>, at: u32, bit: u32) -> Result<(), AllocError>
    requires ascend { Ascend blocks.old.items }
    requires bit { bit < 32 }
    ensures ascend { Ascend blocks.new.items }
    ensures added { OnOk result (places_of blocks.new.items ≡ places_of blocks.old.items ++ (32 * at + bit) ∷ []) }
    ensures err { OnErr result (places_of blocks.new.items ≡ places_of blocks.old.items) }
{
    let count = blocks.len();
    if count == 0 || blocks[count - 1].at < at {
        return push_block(blocks, Block { at, bits: 1 << bit });
    }
    let Some(block) = with_bit(blocks[count - 1], at, bit) else {
        return Err(AllocError);
    };
    blocks[count - 1] = block;
    Ok(())
}

// Adds a block. The first one comes into just its own room, since many lists have no other.
fn push_block(blocks: &mut Vec<Block>, block: Block) -> Result<(), AllocError>
    ensures ok { OnOk result (blocks.new.items ≡ blocks.old.items ++ block ∷ []) }
    ensures err { OnErr result (blocks.new.items ≡ blocks.old.items) }
{
    if blocks.is_empty() {
        blocks.reserve_exact(1)?;
    }
    blocks.push(block)?;
    Ok(())
}

// The block with this bit of the block `at`, if it is that block and the bit is above all that it has.
fn with_bit(block: Block, at: u32, bit: u32) -> Option<Block>
    requires { bit < 32 }
    ensures same { IfSome result (λ b. b.at ≡ block.at) }
    ensures added { IfSome result (λ b. block_places b ≡ block_places block ++ (32 * at + bit) ∷ []) }
{
    if block.at != at || block.bits >> bit != 0 {
        return None;
    }
    Some(Block {
        at,
        bits: block.bits | 1 << bit,
    })
}

// The bits of the block `at`, where there is one.
fn bits_at(blocks: &[Block], at: u32) -> u32
    requires { Ascend blocks.now }
    ensures { (i : ℕ) → i < 32 → is_set result i ≡ has (places_of blocks.now) (32 * at + i) }
{
    match find(blocks, at) {
        Some(here) => blocks[here].bits,
        None => 0,
    }
}

// Where the block `at` stands.
fn find(blocks: &[Block], at: u32) -> Option<usize>
    requires { Ascend blocks.now }
    ensures some { IfSome result (IsAt blocks.now at) }
    ensures none { IfNone result (HasNone blocks.now at) }
{
    if is_at(blocks, at, at as usize) {
        return Some(at as usize);
    }
    if blocks.is_empty() {
        return None;
    }
    find_from_end(blocks, at)
}

fn find_from_end(blocks: &[Block], at: u32) -> Option<usize>
    requires ascend { Ascend blocks.now }
    requires some { blocks.now ≢ [] }
    ensures some { IfSome result (IsAt blocks.now at) }
    ensures none { IfNone result (HasNone blocks.now at) }
{
    let last = blocks.len() - 1;
    if blocks[last].at < at {
        return None;
    }
    let behind = (blocks[last].at - at) as usize;
    if behind <= last && is_at(blocks, at, last - behind) {
        return Some(last - behind);
    }
    by_halving(blocks, at)
}

// Whether the block `at` stands here.
fn is_at(blocks: &[Block], at: u32, here: usize) -> bool
    ensures { IsTrue result → IsAt blocks.now at here }
{
    here < blocks.len() && blocks[here].at == at
}

fn by_halving(blocks: &[Block], at: u32) -> Option<usize>
    requires { Ascend blocks.now }
    ensures some { IfSome result (IsAt blocks.now at) }
    ensures none { IfNone result (HasNone blocks.now at) }
{
    match blocks.binary_search_by_key(&at, |block| block.at) {
        Ok(here) => Some(here),
        Err(_) => None,
    }
}

/// The bits that are not among the others.
pub fn without(bits: u32, others: u32) -> u32
    ensures { (i : ℕ) → i < 32 → is_set result i ≡ (is_set bits i && not (is_set others i)) }
{
    bits & !others
}

/// The lowest bit that is set.
pub fn lowest(bits: u32) -> u32
    requires { 0 < bits }
    ensures within { result < 32 }
    ensures set { is_set bits result ≡ true }
    ensures below { (i : ℕ) → i < result → is_set bits i ≡ false }
{
    bits.trailing_zeros()
}
