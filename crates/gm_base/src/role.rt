//! Roles of groups.

/// In which minimal conflicts a group is.
#[derive(Clone, Copy, Debug, PartialEq, Eq)]
pub enum Role {
    /// There is a conflict, and the group is in each.
    InEvery,
    /// It is in a conflict, and another one lacks it.
    InSome,
    /// It is in no conflict.
    InNone,
}
