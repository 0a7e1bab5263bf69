//! The shape of a clause.
//!
//! A record has 32 bits left for how many literals its clause has, whether it is live and whether it is watched. The lowest
//! bit tells that it is live and the next one that it is watched, and the other 30 count the literals.
ghost use Rattle.std.specs.Prelude.{◌≡◌, ◌≤◌, true, false};
ghost use Rattle.clause_store.specs.Shapes.{literals_in, is_live, is_watched, most_literals};

/// The most literals that a clause can have.
pub const MOST_LITERALS: usize = 1_073_741_823;

/// How many literals a clause has, whether it is live, and whether it is watched.
#[derive(Clone, Copy)]
pub(crate) struct Shape {
    bits: u32,
}

impl Shape {
    /// That of a clause with so many literals, which watches nothing.
    pub fn new(literals: usize, live: bool) -> Shape
        requires { literals ≤ most_literals }
        ensures literals { literals_in result ≡ literals }
        ensures live { is_live result ≡ live }
        ensures unwatched { is_watched result ≡ false }
    {
        let count = 4 * literals as u32;
        if live {
            Shape { bits: count + 1 }
        } else {
            Shape { bits: count }
        }
    }

    /// How many literals.
    pub fn literals(self) -> u32
        ensures { result ≡ literals_in self }
    {
        self.bits / 4
    }

    pub fn is_live(self) -> bool
        ensures { result ≡ is_live self }
    {
        self.bits % 2 == 1
    }

    pub fn is_watched(self) -> bool
        ensures { result ≡ is_watched self }
    {
        self.bits / 2 % 2 == 1
    }

    /// The same of a clause that is not live.
    pub fn dead(self) -> Shape
        ensures literals { literals_in result ≡ literals_in self }
        ensures dead { is_live result ≡ false }
        ensures watched { is_watched result ≡ is_watched self }
    {
        Shape {
            bits: self.bits / 2 * 2,
        }
    }

    /// The same of a clause that is watched.
    pub fn watched(self) -> Shape
        ensures literals { literals_in result ≡ literals_in self }
        ensures live { is_live result ≡ is_live self }
        ensures watched { is_watched result ≡ true }
    {
        Shape {
            bits: self.bits / 4 * 4 + 2 + self.bits % 2,
        }
    }

    /// The same of a clause that watches nothing.
    pub fn unwatched(self) -> Shape
        ensures literals { literals_in result ≡ literals_in self }
        ensures live { is_live result ≡ is_live self }
        ensures unwatched { is_watched result ≡ false }
    {
        Shape {
            bits: self.bits / 4 * 4 + self.bits % 2,
        }
    }
}
