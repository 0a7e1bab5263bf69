//! Numbers in the words of a call, of the kinds that calls take.
ghost use Rattle.std.specs.Prelude.{◌<◌, IfSome};

use crate::step::Step;

impl Step<'_> {
    /// The number at this place, if it is one from 0 to the greatest of 64 bits.
    pub fn amount(&self, at: usize) -> Option<u64> {
        u64::try_from(self.number(at)?).ok()
    }

    /// The number at this place, if it is one from 0 to the greatest of 32 bits.
    pub fn count(&self, at: usize) -> Option<u32> {
        u32::try_from(self.number(at)?).ok()
    }

    /// The number at this place, if it is one from 1 to the greatest of 32 bits, as a group's or a variable's.
    pub fn positive(&self, at: usize) -> Option<u32>
        ensures { IfSome result (λ n. 0 < n) }
    {
        let number = self.count(at)?;
        if number > 0 { Some(number) } else { None }
    }
}
