//! Conflicts that serve a correction.
//!
//! A conflict serves for a group of a correction if it has no group of the correction but, maybe, this one. A conflict that
//! has none at all of the correction's groups would serve for each of them; but no witness satisfies all groups outside the
//! correction then. So behind accepted records it suffices to look at the conflicts that have the group, and an index has
//! them by their groups: the place of each conflict stands in the list of each of its groups, in the order of the records.
//! The first place of the group's list that stands in no list of another group of the correction is that of the first
//! conflict that serves. No record is looked at, and the lists are compared 32 places at a time.
ghost use Rattle.std.specs.Prelude.{◌≡◌, ◌≢◌, ℕ, true, not, ◌<◌, ◌+◌, ◌*◌, ◌==◌, ◌&&◌, ◌||◌, ◌++◌, ◌∷◌, List, [], All, OnOk, OnErr, IfOk, length, slice_index_or, if◌then◌else◌};
ghost use Rattle.std.specs.List.{find};
ghost use Rattle.std.specs.Option.{option_map};
ghost use Rattle.gm_base.specs.Sets.{has};
ghost use Rattle.evidence_rec.specs.Records.{set_of};
ghost use Rattle.evidence_rec.specs.Columns.{is_set};
ghost use Rattle.evidence_rec.specs.Places.{places_of};
ghost use Rattle.evidence_rec.specs.Numbered.{Rise, AreBelow};
ghost use Rattle.evidence_rec.specs.Shorten.{least_serving};
ghost use Rattle.evidence_rec.specs.Serving.{IsIndexOf, IndexesOneMore, FindsServing, is_apart};

use crate::places::{Block, PlaceList, lowest, without};
use crate::record::Record;
use gm_base::GroupSet;
use std::alloc::{AllocError, Global};
use std::marker::Model;

/// The places of conflicts in a list of records, by their groups.
///
/// For each group of each conflict it takes eight bytes at most, and at most sixteen with the room that lists are ahead by;
/// and the table of the places likewise four and eight for each conflict.
#[derive(Drop)]
pub struct ConflictIndex {
    places: Vec<u32>,
    lists: Vec<PlaceList>,
}

impl Model for ConflictIndex {
    ghost use Rattle.std.specs.Prelude.{List, ℕ};
    ghost use Rattle.evidence_rec.specs.Numbered.{placed, IsNumbered};

    ghost Value = { List (List ℕ) };

    ghost view = { λ index. placed index.places.items index.lists.items };

    ghost invariant = { λ index. IsNumbered index.places.items index.lists.items };
}

impl ConflictIndex {
    /// The index of no records, for groups up to this one.
    pub fn new(alloc: Global, groups: u32) -> Result<ConflictIndex, AllocError>
        ensures groups { IfOk result (λ index. length index ≡ groups + 1) }
        ensures none { IfOk result (IsIndexOf []) }
    {
        let mut lists = Vec::new(alloc);
        lists.push(PlaceList::new(alloc))?;
        for _ in 0..groups {
            lists.push(PlaceList::new(alloc))?;
        }
        Ok(ConflictIndex {
            places: Vec::new(alloc),
            lists,
        })
    }

    /// Adds the record behind those that it has, of which there are so many. Where it has one behind that place, the record
    /// finds no room.
    pub fn add(&mut self, count: usize, record: &Record) -> Result<(), AllocError>
        requires within { (g : ℕ) → has (set_of «record».now) g ≡ true → g < length self.old }
        ensures groups { OnOk result (length self.new ≡ length self.old) }
        ensures one_more { OnOk result (IndexesOneMore count «record».now self.old self.new) }
    {
        let Record::Conflict { set, .. } = record else {
            return Ok(());
        };
        let Ok(place) = u32::try_from(count) else {
            return Err(AllocError);
        };
        let Ok(number) = u32::try_from(self.places.len()) else {
            return Err(AllocError);
        };
        push_above(&mut self.places, place)?;
        list_under(&mut self.lists, set, number)
    }

    /// The least number of a conflict that serves for a group of a correction, in the records that it has.
    pub fn least_serving(&self, set: &GroupSet, group: u32) -> Option<u64>
        requires within { (g : ℕ) → has set.now g ≡ true → g < length self.now }
        requires of_the_set { has set.now group ≡ true }
        ensures { (earlier : List Record) → FindsServing earlier set.now self.now → result ≡ least_serving earlier set.now group }
    {
        let lists = self.lists.as_slice();
        let own = lists[group as usize].blocks();
        let number = first_apart(lists, set.as_slice(), group, own)?;
        Some(u64::from(self.places[number]) + 1)
    }
}

// Adds a place that is above all others.
fn push_above(places: &mut Vec<u32>, place: u32) -> Result<(), AllocError>
    requires { Rise places.old.items }
    ensures rise { Rise places.new.items }
    ensures ok { OnOk result (places.new.items ≡ places.old.items ++ place ∷ []) }
    ensures err { OnErr result (places.new.items ≡ places.old.items) }
{
    let count = places.len();
    if count > 0 && places[count - 1] >= place {
        return Err(AllocError);
    }
    places.push(place)?;
    Ok(())
}

// Lists a number under each group of the set.
fn list_under(lists: &mut Vec<PlaceList>, set: &GroupSet, number: u32) -> Result<(), AllocError>
    requires within { (g : ℕ) → has set.now g ≡ true → g < length lists.old.items }
    ensures groups { OnOk result (length lists.new.items ≡ length lists.old.items) }
    ensures lists { OnOk result ((g : ℕ) → slice_index_or lists.new.items g [] ≡ slice_index_or lists.old.items g [] ++ (if has set.now g then number ∷ [] else [])) }
    ensures below { (bound : ℕ) → number < bound → AreBelow bound lists.old.items → AreBelow bound lists.new.items }
{
    for group in set.as_slice() {
        list_at(lists, *group, number)?;
    }
    Ok(())
}

// Adds a number to the list of one group.
fn list_at(lists: &mut Vec<PlaceList>, group: u32, number: u32) -> Result<(), AllocError>
    requires { group < length lists.old.items }
    ensures groups { OnOk result (length lists.new.items ≡ length lists.old.items) }
    ensures own { OnOk result (slice_index_or lists.new.items group [] ≡ slice_index_or lists.old.items group [] ++ number ∷ []) }
    ensures others { OnOk result ((g : ℕ) → g ≢ group → slice_index_or lists.new.items g [] ≡ slice_index_or lists.old.items g []) }
    ensures below { (bound : ℕ) → number < bound → AreBelow bound lists.old.items → AreBelow bound lists.new.items }
{
    lists[group as usize].add(number)?;
    Ok(())
}

// The first of the numbers in these blocks that no group of the set has but, maybe, this one.
fn first_apart(lists: &[PlaceList], set: &[u32], group: u32, blocks: &[Block]) -> Option<usize>
    requires { All (λ g. g < length lists.now) set.now }
    ensures { result ≡ find (is_apart lists.now set.now group) (places_of blocks.now) }
{
    for block in blocks {
        let bits = apart_bits(lists, set, group, *block);
        if bits > 0 {
            return Some(number_at(*block, lowest(bits)));
        }
    }
    None
}

// The number of this bit.
fn number_at(block: Block, bit: u32) -> usize
    requires { bit < 32 }
    ensures { result ≡ 32 * block.at + bit }
{
    32 * block.at as usize + bit as usize
}

// The bits of a block whose places no group of the set has but, maybe, this one.
fn apart_bits(lists: &[PlaceList], set: &[u32], group: u32, block: Block) -> u32
    requires { All (λ g. g < length lists.now) set.now }
    ensures { (i : ℕ) → i < 32 → is_set result i ≡ (is_set block.bits i && is_apart lists.now set.now group (32 * block.at + i)) }
{
    let mut bits = block.bits;
    for other in set {
        if bits == 0 {
            return 0;
        }
        bits = bits_without(bits, block.at, lists, *other, group);
    }
    bits
}

// The bits whose places the other group does not have, if it is another one.
fn bits_without(bits: u32, at: u32, lists: &[PlaceList], other: u32, group: u32) -> u32
    requires { other < length lists.now }
    ensures { (i : ℕ) → i < 32 → is_set result i ≡ (is_set bits i && (other == group || not (has (slice_index_or lists.now other []) (32 * at + i)))) }
{
    if other == group {
        return bits;
    }
    without(bits, lists[other as usize].bits_at(at))
}

/// The least number of a conflict among these records that serves for a group of a correction. It looks at each record.
pub fn least_serving(earlier: &[Record], set: &GroupSet, group: u32) -> Option<u64>
    ensures { result ≡ least_serving earlier.now set.now group }
{
    for at in 0..earlier.len() {
        if earlier[at].is_inside(set, group) {
            return Some(at as u64 + 1);
        }
    }
    None
}
