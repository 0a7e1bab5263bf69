//! A call of a disk in memory, as it is kept.

#[derive(Clone, Copy)]
pub(crate) enum DiskCall {
    Looked,
    /// So many bytes were written at this place.
    Wrote(u64, u64),
    Synced,
    Failed,
}
