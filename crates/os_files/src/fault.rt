//! Why a call of the system did not work, for a person.
use gm_words::Shown;
use std::fmt::{Display, Formatter};
use std::{fmt, io};

/// The name that was given, and the system's reason or one of ours.
#[derive(Clone, Copy)]
pub struct Fault<'a> {
    pub name: &'a str,
    pub why: io::Error,
}

impl<'a> Display for Fault<'a> {
    fn fmt<W: fmt::Write>(&self, f: &mut Formatter<W>) -> fmt::Result {
        let (name, why) = (Shown(self.name), self.why);
        write!(f, "{name}: {why}")
    }
}

/// The reason for a call that needs an opened file and has none.
pub fn nothing_opened() -> io::Error {
    io::Error::other("nothing is opened")
}

/// The reason for a write that took none of its bytes.
pub fn nothing_taken() -> io::Error {
    io::Error::new(io::ErrorKind::WriteZero, "no byte was taken")
}
