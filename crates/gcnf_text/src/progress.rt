//! How far a text was read.
use crate::form::Form;

/// The form and the numbers of the header, and how many clauses were ended and literals read so far.
#[derive(Clone, Copy)]
pub(crate) struct Progress {
    pub(crate) form: Form,
    pub(crate) vars: u32,
    pub(crate) clauses: u32,
    pub(crate) groups: u32,
    pub(crate) ended: u32,
    pub(crate) literals: u32,
}
