//! Numbers of sets, found by a hash of what lies outside of them.
//!
//! The hash is the sum of one number for each group, so that of all groups outside of a set is found from its own groups,
//! and no complement is written down. Two sets may have one hash: the later one is found, and whoever looks up tests it.
use std::alloc::{AllocError, Global};
use std::collections::HashMap;

/// The numbers of sets, by their hashes.
#[derive(Drop)]
pub struct SetNumbers {
    // The hash of all groups.
    all: u64,
    numbers: HashMap<u64, u32>,
}

impl SetNumbers {
    /// No numbers, of sets of groups up to this one.
    pub fn new(alloc: Global, groups: u32) -> SetNumbers {
        let mut all = 0u64;
        for at in 0..groups {
            all = all.wrapping_add(scattered(at + 1));
        }
        SetNumbers {
            all,
            numbers: HashMap::new(alloc),
        }
    }

    /// The number of the set that has exactly the groups that this one lacks.
    pub fn outside(&self, groups: &[u32]) -> Option<usize> {
        let number = self.numbers.get(&self.all.wrapping_sub(hash_of(groups)))?;
        Some(*number as usize)
    }

    /// The number of the set that has exactly these groups.
    pub fn same(&self, groups: &[u32]) -> Option<usize> {
        let number = self.numbers.get(&hash_of(groups))?;
        Some(*number as usize)
    }

    /// Gives the set of these groups a number.
    pub fn insert(&mut self, groups: &[u32], number: usize) -> Result<(), AllocError> {
        let Ok(number) = u32::try_from(number) else {
            return Err(AllocError);
        };
        self.numbers.insert(hash_of(groups), number)?;
        Ok(())
    }
}

fn hash_of(groups: &[u32]) -> u64 {
    let mut hash = 0u64;
    for group in groups {
        hash = scattered(*group).wrapping_add(hash);
    }
    hash
}

// The number of a group in the sum (the last steps of SplitMix64, Steele, Lea and Flood 2014).
fn scattered(group: u32) -> u64 {
    let seed = (group as u64).wrapping_mul(0x9e37_79b9_7f4a_7c15);
    let once = (seed ^ (seed >> 30)).wrapping_mul(0xbf58_476d_1ce4_e5b9);
    let twice = (once ^ (once >> 27)).wrapping_mul(0x94d0_49bb_1331_11eb);
    twice ^ (twice >> 31)
}
