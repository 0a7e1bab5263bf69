//! Sets of groups, by the words of a call.
use gm_base::GroupSet;
use std::alloc::{AllocError, Global};
use trial_script::Step;

/// The set of the groups from this place on, if each word there is one.
pub fn set_from(
    alloc: Global,
    step: &Step<'_>,
    from: usize,
) -> Result<Option<GroupSet>, AllocError> {
    let mut set = GroupSet::new(alloc);
    for at in from..step.words().len() {
        let Some(group) = step.positive(at) else {
            return Ok(None);
        };
        set = set.with(alloc, group)?;
    }
    Ok(Some(set))
}
