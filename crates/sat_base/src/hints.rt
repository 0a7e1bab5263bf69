//! Hints.
//!
//! A hint is the id of a clause. The program numbers clauses from 1, so its ids fit 32 bits, but whoever wrote a derivation
//! elsewhere may have taken greater ones. So a list keeps its hints in 32 bits each as long as all fit, and all of them in
//! 64 from the first one on that doesn't. A step that stands in a log is lent with the ids of the log, and their numbers are
//! found as they are read.
ghost use Rattle.std.specs.Prelude.{◌≡◌, ◌≤◌, ◌<◌, ◌^◌, [], ◌++◌, ◌↔◌, All, IsTrue, OnOk, OnErr, length, map, slice_index, slice_range};
ghost use Rattle.sat_base.specs.Hints.{kept_ids, ids_of};
ghost use Rattle.sat_base.specs.Numbering.{number_by};

use crate::numbering::Numbering;
use std::alloc::{AllocError, Global};
use std::marker::Model;

/// Ids as they are kept, lent.
#[derive(Clone, Copy)]
pub enum Ids<'a> {
    /// In 32 bits each.
    Narrow(&'a [u32]),
    /// In 64 bits each.
    Wide(&'a [u64]),
}

impl<'a> Ids<'a> {
    pub(crate) fn len(&self) -> usize
        ensures { result ≡ length (kept_ids self.now) }
    {
        match self {
            Ids::Narrow(ids) => ids.len(),
            Ids::Wide(ids) => ids.len(),
        }
    }

    /// The id at a place, from 0.
    pub(crate) fn at(&self, at: usize) -> u64
        requires { at < length (kept_ids self.now) }
        ensures { result ≡ slice_index (kept_ids self.now) at }
    {
        match self {
            Ids::Narrow(ids) => narrow_at(ids, at),
            Ids::Wide(ids) => wide_at(ids, at),
        }
    }

    /// They as hints.
    pub(crate) fn as_they_are(self) -> Hints<'a>
        ensures { ids_of result ≡ kept_ids self.entry }
    {
        match self {
            Ids::Narrow(ids) => Hints::Narrow(ids),
            Ids::Wide(ids) => Hints::Wide(ids),
        }
    }
}

/// The hints of a step, lent, in the order of propagation.
#[derive(Clone, Copy)]
pub enum Hints<'a> {
    /// In 32 bits each.
    Narrow(&'a [u32]),
    /// In 64 bits each.
    Wide(&'a [u64]),
    /// Ids of a log, under other numbers.
    Numbered(Ids<'a>, &'a Numbering),
}

impl Hints<'_> {
    pub fn len(&self) -> usize
        ensures { result ≡ length (ids_of self.now) }
    {
        match self {
            Hints::Narrow(ids) => ids.len(),
            Hints::Wide(ids) => ids.len(),
            Hints::Numbered(ids, _) => ids.len(),
        }
    }

    /// The hint at a place, from 0.
    pub fn at(&self, at: usize) -> u64
        requires { at < length (ids_of self.now) }
        ensures { result ≡ slice_index (ids_of self.now) at }
    {
        match self {
            Hints::Narrow(ids) => narrow_at(ids, at),
            Hints::Wide(ids) => wide_at(ids, at),
            Hints::Numbered(ids, by) => numbered_at(ids, by, at),
        }
    }
}

fn narrow_at(ids: &[u32], at: usize) -> u64
    requires { at < length ids.now }
    ensures { result ≡ slice_index ids.now at }
{
    u64::from(ids[at])
}

fn wide_at(ids: &[u64], at: usize) -> u64
    requires { at < length ids.now }
    ensures { result ≡ slice_index ids.now at }
{
    ids[at]
}

fn numbered_at(ids: &Ids<'_>, by: &Numbering, at: usize) -> u64
    requires { at < length (map (number_by by.now) (kept_ids ids.now)) }
    ensures { result ≡ slice_index (map (number_by by.now) (kept_ids ids.now)) at }
{
    by.number(ids.at(at))
}

/// Hints of many steps, one after another.
#[derive(Drop)]
pub(crate) struct HintList {
    narrow: Vec<u32>,
    wide: Vec<u64>,
}

impl Model for HintList {
    ghost use Rattle.std.specs.Prelude.{List, ℕ};

    ghost Value = { List ℕ };

    ghost use Rattle.sat_base.specs.HintLists.{all_ids, OneIsEmpty};

    ghost view = { all_ids };

    ghost invariant = { OneIsEmpty };
}

impl HintList {
    /// No hints. It takes no memory.
    pub(crate) fn new(alloc: Global) -> HintList
        ensures { result ≡ [] }
    {
        HintList {
            narrow: Vec::new(alloc),
            wide: Vec::new(alloc),
        }
    }

    pub(crate) fn len(&self) -> usize
        ensures { result ≡ length self.now }
    {
        if self.wide.len() == 0 {
            self.narrow.len()
        } else {
            self.wide.len()
        }
    }

    /// Adds hints at the end, all or none.
    pub(crate) fn push_all(&mut self, more: &[u64]) -> Result<(), AllocError>
        ensures ok { OnOk result (self.new ≡ self.old ++ more.now) }
        ensures err { OnErr result (self.new ≡ self.old) }
    {
        if self.wide.len() == 0 && are_small(more) {
            return push_narrow(&mut self.narrow, more);
        }
        push_wide(&mut self.wide, &self.narrow)?;
        self.narrow.clear();
        self.wide.extend_from_slice(more)
    }

    /// The hints from a place up to another one.
    pub(crate) fn range(&self, from: usize, to: usize) -> Ids<'_>
        requires ordered { from ≤ to }
        requires within { to ≤ length self.now }
        ensures { kept_ids result ≡ slice_range self.now from to }
    {
        if self.wide.len() == 0 {
            Ids::Narrow(&self.narrow[from..to])
        } else {
            Ids::Wide(&self.wide[from..to])
        }
    }

    /// Gives back the memory that no hint needs.
    pub(crate) fn shrink_to_fit(&mut self)
        ensures { self.new ≡ self.old }
    {
        self.narrow.shrink_to_fit();
        self.wide.shrink_to_fit();
    }
}

/// Whether each number fits 32 bits.
pub fn are_small(numbers: &[u64]) -> bool
    ensures { IsTrue result ↔ All (λ n. n < 2 ^ 32) numbers.now }
{
    numbers.iter().all(|n| *n < 1 << 32)
}

/// Adds numbers that fit 32 bits at the end, all or none.
pub fn push_narrow(ids: &mut Vec<u32>, more: &[u64]) -> Result<(), AllocError>
    requires { All (λ n. n < 2 ^ 32) more.now }
    ensures ok { OnOk result (ids.new.items ≡ ids.old.items ++ more.now) }
    ensures err { OnErr result (ids.new.items ≡ ids.old.items) }
{
    ids.reserve(more.len())?;
    for id in more {
        ids.push_reserved(*id as u32);
    }
    Ok(())
}

// Adds numbers of 32 bits at the end of those of 64, all or none.
fn push_wide(ids: &mut Vec<u64>, more: &[u32]) -> Result<(), AllocError>
    ensures ok { OnOk result (ids.new.items ≡ ids.old.items ++ more.now) }
    ensures err { OnErr result (ids.new.items ≡ ids.old.items) }
{
    ids.reserve(more.len())?;
    for id in more {
        ids.push_reserved(u64::from(*id));
    }
    Ok(())
}
