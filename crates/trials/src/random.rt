// A small generator of numbers and of readings that look random.
ghost use Rattle.std.specs.Prelude.{◌<◌, max};

use reading::{HIGHEST, LOWEST, Reading};

#[derive(Drop)]
pub(crate) struct Random(u32);

impl Random {
    pub(crate) fn new(seed: u32) -> Self {
        Random(seed)
    }

    pub(crate) fn next(&mut self, below: u32) -> u32
        ensures { result < max below 1 }
    {
        self.0 = self.0.wrapping_mul(1_664_525).wrapping_add(1_013_904_223);
        (self.0 >> 8) % below.max(1)
    }

    // Below 60,001, so the cast loses nothing.
    pub(crate) fn level(&mut self) -> i32 {
        LOWEST + self.next(60_001) as i32
    }

    // A reading on the scale, now and then at an end of it.
    pub(crate) fn reading(&mut self) -> Reading {
        let value = match self.next(8) {
            0 => LOWEST,
            1 => HIGHEST,
            _ => self.level(),
        };
        Reading {
            value,
            weight: self.next(1_000) + 1,
        }
    }
}
