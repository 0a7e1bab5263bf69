//! Words of assignments.
//!
//! Assignments of one search often differ in few variables, and each has as many words as all others. So where there are
//! many words, they stand in blocks of 64, each behind a shared pointer. A copy with one word written shares all blocks but
//! the one that this word is in, and lists that were made apart can share each block that both have alike. Where one block
//! is enough, the words stand in one list, which costs a reader no more than a test.
ghost use Rattle.std.specs.Prelude.{◌≡◌, ◌<◌, ◌≤◌, IfOk, IsTrue, length, slice_index, slice_set, take};
ghost use Rattle.std.specs.List.{concat};
ghost use Rattle.sat_base.specs.FullBlocks.{AreFull};

use std::alloc::{AllocError, Global};
use std::marker::Model;
use std::sync::Arc;

// How many words a block has, but for the last one, which may have fewer.
const BLOCK: usize = 64;

// Fewer words than these in one list stay as they are: there is little to give back.
const FEW: usize = 8;

#[derive(Debug, Drop)]
struct Block {
    words: Arc<Vec<u64>, Global>,
}

impl Model for Block {
    ghost use Rattle.std.specs.Prelude.{List, ℕ};
    ghost use Rattle.std.specs.Arc.{arc_value};

    ghost Value = { List ℕ };

    ghost view = { λ block. (arc_value block.words).items };
}

impl Block {
    fn new(alloc: Global, words: Vec<u64>) -> Result<Block, AllocError>
        ensures { IfOk result (λ block. block ≡ words.items) }
    {
        let words = Arc::new(alloc, words)?;
        Ok(Block { words })
    }

    fn copy(&self) -> Result<Block, AllocError>
        ensures { IfOk result (λ copy. copy ≡ self.now) }
    {
        let words = Arc::try_clone(&self.words)?;
        Ok(Block { words })
    }

    fn words(&self) -> &[u64]
        ensures { result.now ≡ self.now }
    {
        self.words.as_slice()
    }

    // Takes the other block for this one, where both are alike.
    fn share(&mut self, other: &Block)
        ensures { self.new ≡ self.old }
    {
        if self.words() != other.words() {
            return;
        }
        if let Ok(copy) = other.copy() {
            *self = copy;
        }
    }
}

/// Words that are not written any more.
#[derive(Debug, Drop)]
pub(crate) struct Words {
    kept: Kept,
}

#[derive(Debug, Drop)]
enum Kept {
    One(Vec<u64>),
    Many(Vec<Block>),
}

impl Model for Words {
    ghost use Rattle.std.specs.Prelude.{List, ℕ};
    ghost use Rattle.sat_base.specs.Words.{words_of, IsKept};

    ghost Value = { List ℕ };

    ghost view = { words_of };

    ghost invariant = { IsKept };
}

impl Words {
    /// The words of a vector. No spare room is kept.
    pub(crate) fn new(alloc: Global, words: Vec<u64>) -> Result<Words, AllocError>
        ensures { IfOk result (λ made. made ≡ words.items) }
    {
        let kept = if words.len() > BLOCK {
            Kept::Many(cut(alloc, words.as_slice())?)
        } else {
            Kept::One(without_room(words))
        };
        Ok(Words { kept })
    }

    /// The word at a place, from 0.
    pub(crate) fn at(&self, at: usize) -> u64
        requires { at < length self.now }
        ensures { result ≡ slice_index self.now at }
    {
        match &self.kept {
            Kept::One(words) => words[at],
            Kept::Many(blocks) => word_at(blocks, at),
        }
    }

    /// The same words but for one. It costs a copy of the block that this one is in, and a pointer for each other block.
    pub(crate) fn written(&self, alloc: Global, at: usize, word: u64) -> Result<Words, AllocError>
        requires { at < length self.now }
        ensures { IfOk result (λ written. written ≡ slice_set self.now at word) }
    {
        let kept = match &self.kept {
            Kept::One(words) => Kept::One(with_word(alloc, words, at, word)?),
            Kept::Many(blocks) => Kept::Many(with_block(alloc, blocks, at, word)?),
        };
        Ok(Words { kept })
    }

    /// Whether both are in one list, and alike.
    pub(crate) fn is_small_like(&self, other: &Words) -> bool
        ensures { IsTrue result → self.now ≡ other.now }
    {
        match (&self.kept, &other.kept) {
            (Kept::One(words), Kept::One(others)) => words.as_slice() == others.as_slice(),
            _ => false,
        }
    }

    /// Shares with other words each block that both have alike.
    pub(crate) fn share(&mut self, other: &Words)
        ensures { self.new ≡ self.old }
    {
        if let (Kept::Many(blocks), Kept::Many(others)) = (&mut self.kept, &other.kept) {
            share_each(blocks, others);
        }
    }

    /// Drops the blocks behind those that the first so many words are in. One list is cut where half of it and more goes.
    pub(crate) fn drop_behind(&mut self, count: usize)
        requires { count ≤ length self.old }
        ensures same { take count self.new ≡ take count self.old }
        ensures enough { count ≤ length self.new }
    {
        match &mut self.kept {
            Kept::One(words) => drop_words(words, count),
            Kept::Many(blocks) => drop_blocks(blocks, count),
        }
    }
}

fn without_room(words: Vec<u64>) -> Vec<u64>
    ensures { result.items ≡ words.items }
{
    let mut words = words;
    words.shrink_to_fit();
    words
}

// The words in blocks.
fn cut(alloc: Global, words: &[u64]) -> Result<Vec<Block>, AllocError>
    requires { 0 < length words.now }
    ensures words { IfOk result (λ blocks. concat blocks.items ≡ words.now) }
    ensures full { IfOk result (λ blocks. AreFull blocks.items) }
{
    let count = (words.len() - 1) / BLOCK;
    let mut blocks = Vec::with_capacity(alloc, count + 1)?;
    for at in 0..count {
        let block = Vec::from_slice(alloc, &words[at * BLOCK..at * BLOCK + BLOCK])?;
        blocks.push(Block::new(alloc, block)?)?;
    }
    let last = Vec::from_slice(alloc, &words[count * BLOCK..])?;
    blocks.push(Block::new(alloc, last)?)?;
    Ok(blocks)
}

// The word at a place of all blocks.
fn word_at(blocks: &[Block], at: usize) -> u64
    requires full { AreFull blocks.now }
    requires in_range { at < length (concat blocks.now) }
    ensures { result ≡ slice_index (concat blocks.now) at }
{
    blocks[at / BLOCK].words()[at % BLOCK]
}

// A copy but for one word.
fn with_word(alloc: Global, words: &[u64], at: usize, word: u64) -> Result<Vec<u64>, AllocError>
    requires { at < length words.now }
    ensures { IfOk result (λ written. written.items ≡ slice_set words.now at word) }
{
    let mut written = Vec::from_slice(alloc, words)?;
    written[at] = word;
    Ok(written)
}

// The same blocks but for the one that has the word at this place, which is a copy but for this word.
fn with_block(
    alloc: Global,
    blocks: &[Block],
    at: usize,
    word: u64,
) -> Result<Vec<Block>, AllocError>
    requires full { AreFull blocks.now }
    requires in_range { at < length (concat blocks.now) }
    ensures words { IfOk result (λ written. concat written.items ≡ slice_set (concat blocks.now) at word) }
    ensures full { IfOk result (λ written. AreFull written.items) }
{
    let block = with_word(alloc, blocks[at / BLOCK].words(), at % BLOCK, word)?;
    let mut written = copies(alloc, blocks)?;
    written[at / BLOCK] = Block::new(alloc, block)?;
    Ok(written)
}

// The same blocks.
fn copies(alloc: Global, blocks: &[Block]) -> Result<Vec<Block>, AllocError>
    ensures { IfOk result (λ copies. copies.items ≡ blocks.now) }
{
    let mut copies = Vec::with_capacity(alloc, blocks.len())?;
    for block in blocks {
        copies.push(block.copy()?)?;
    }
    Ok(copies)
}

fn share_each(blocks: &mut Vec<Block>, others: &[Block])
    ensures { blocks.new.items ≡ blocks.old.items }
{
    for at in 0..blocks.len().min(others.len()) {
        blocks[at].share(&others[at]);
    }
}

// Keeps the first so many words, where half of the list and more goes.
fn drop_words(words: &mut Vec<u64>, count: usize)
    requires { count ≤ length words.old.items }
    ensures same { take count words.new.items ≡ take count words.old.items }
    ensures enough { count ≤ length words.new.items }
{
    if words.len() >= FEW && count <= words.len() / 2 {
        words.truncate(count);
        words.shrink_to_fit();
    }
}

// Keeps the blocks that the first so many words are in.
fn drop_blocks(blocks: &mut Vec<Block>, count: usize)
    requires full { AreFull blocks.old.items }
    requires in_range { count ≤ length (concat blocks.old.items) }
    ensures same { take count (concat blocks.new.items) ≡ take count (concat blocks.old.items) }
    ensures enough { count ≤ length (concat blocks.new.items) }
    ensures full { AreFull blocks.new.items }
{
    let needed = count.div_ceil(BLOCK);
    if needed < blocks.len() {
        blocks.truncate(needed);
        blocks.shrink_to_fit();
    }
}
