//! Sets in one piece of memory.
//!
//! The groups of all sets stand one after another, and of each set where its own begin and end, so that many sets are two
//! pieces of memory and not one each. A set is lent as the slice that it is, and made a [`GroupSet`] only where it is
//! handed out.
ghost use Rattle.std.specs.Prelude.{◌≡◌, [], ◌∷◌, ◌++◌, IfSome, Some, OnOk, OnErr, slice_get};

use gm_base::GroupSet;
use std::alloc::{AllocError, Global};
use std::marker::Model;

// Where the groups of a set begin and end among those of all sets, and what stands beside it.
#[derive(Drop)]
struct Span<E> {
    from: usize,
    to: usize,
    evidence: E,
}

/// Sets with their evidence, in the order in which they were added.
#[derive(Drop)]
pub struct SetArena<E> {
    groups: Vec<u32>,
    spans: Vec<Span<E>>,
}

impl<E> Model for SetArena<E> {
    ghost use Rattle.std.specs.Prelude.{List, All, length, map};
    ghost use Rattle.known_sets.specs.declared.entry.Entry.{Entry};
    ghost use Rattle.known_sets.specs.Arena.{entry_of, IsSpan};

    ghost Value = { List (Entry E) };

    ghost view = { λ arena. map (entry_of arena.groups.items) arena.spans.items };

    ghost invariant = { λ arena. All (IsSpan (length arena.groups.items)) arena.spans.items };
}

/// A set and its evidence, lent by an arena.
#[derive(Drop)]
pub struct Lent<'a, E> {
    pub set: &'a [u32],
    pub evidence: &'a E,
}

impl<E> SetArena<E> {
    /// No sets. It takes no memory.
    pub fn new(alloc: Global) -> SetArena<E>
        ensures { result ≡ [] }
    {
        SetArena {
            groups: Vec::new(alloc),
            spans: Vec::new(alloc),
        }
    }

    /// How many sets there are.
    pub fn len(&self) -> usize {
        self.spans.len()
    }

    /// The set of this number.
    pub fn get(&self, number: usize) -> Option<Lent<'_, E>>
        ensures { IfSome result (λ lent. slice_get self.now number ≡ Some (record { set = lent.set.now; evidence = lent.evidence.now })) }
    {
        let span = self.spans.get(number)?;
        let set = &self.groups[span.from..span.to];
        Some(Lent {
            set,
            evidence: &span.evidence,
        })
    }
}

impl<E: Drop> SetArena<E> {
    /// Adds a set at the end.
    pub fn push(&mut self, set: &[u32], evidence: E) -> Result<(), AllocError>
        ensures ok { OnOk result (self.new ≡ self.old ++ record { set = set.now; evidence = evidence } ∷ []) }
        ensures err { OnErr result (self.new ≡ self.old) }
    {
        let from = self.groups.len();
        // Room first, so that all is as it was where there is none.
        self.spans.reserve(1)?;
        self.groups.extend_from_slice(set)?;
        let to = self.groups.len();
        self.spans.push_reserved(Span { from, to, evidence });
        Ok(())
    }
}

/// The set of these groups, where they ascend from 1 on.
pub fn set_of(alloc: Global, groups: &[u32]) -> Option<GroupSet>
    ensures { IfSome result (λ set. set ≡ groups.now) }
{
    let mut set = GroupSet::new(alloc);
    let mut last = 0;
    for group in groups {
        if *group <= last {
            return None;
        }
        let Ok(()) = set.push(*group) else {
            return None;
        };
        last = *group;
    }
    Some(set)
}
