//! The one error of all ports.

/// A read or a write that did not work. What counts it says that it happened, and nothing says why.
#[derive(Clone, Copy)]
pub struct Failed;
