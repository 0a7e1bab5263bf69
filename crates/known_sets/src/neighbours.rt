//! Sets that differ in one group.
ghost use Rattle.std.specs.Prelude.{◌≡◌, ◌+◌, true, IfSome, length};
ghost use Rattle.gm_base.specs.Sets.{has};

// The first place at which the lists differ, or the length of the shorter one.
fn first_difference(small: &[u32], large: &[u32]) -> usize {
    for (at, g) in small.iter().enumerate() {
        if large.get(at) != Some(g) {
            return at;
        }
    }
    small.len()
}

/// The one group that the larger of two ascending lists has more, where it has all groups of the smaller.
pub fn one_more(small: &[u32], large: &[u32]) -> Option<u32> {
    let at = first_difference(small, large);
    let rest = small.get(at..)?;
    let (group, behind) = large.get(at..)?.split_first()?;
    if rest == behind { Some(*group) } else { None }
}
