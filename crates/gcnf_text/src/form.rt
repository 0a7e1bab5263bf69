//! The two forms of a text.

/// In GCNF a clause names its group, and in CNF each clause is a group of its own.
#[derive(Clone, Copy)]
pub(crate) enum Form {
    Gcnf,
    Cnf,
}
