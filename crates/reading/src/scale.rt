// One reading, and the scale of values and weights.
ghost use Rattle.std.specs.Prelude.{◌≡◌};
ghost use Rattle.reading.specs.Scale.{admitted, is_level, is_weight, on_scale};

use crate::refusals::Refusal;

// The most readings that a profile, a stored profile or a measured list holds.
pub const LIMIT: usize = 1024;

// The lowest value or level.
pub const LOWEST: i32 = -30_000;

// The highest value or level.
pub const HIGHEST: i32 = 30_000;

const HEAVIEST: u32 = 1_000;

// One measured value in hundredths of a decibel, and how many sweeps stand behind it.
#[derive(Clone, Copy, PartialEq, Eq, Hash, Debug)]
pub struct Reading {
    pub value: i32,
    pub weight: u32,
}

// Whether a number is a level: levels and values have one scale.
pub fn is_level(number: i32) -> bool
    ensures { result ≡ is_level number }
{
    (LOWEST..=HIGHEST).contains(&number)
}

fn is_weight(number: u32) -> bool
    ensures { result ≡ is_weight number }
{
    (1..=HEAVIEST).contains(&number)
}

impl Reading {
    // This reading, which is to have that place; refused where its value or its weight is off the scale.
    pub fn admit(self, place: usize) -> Result<Reading, Refusal>
        ensures { result ≡ admitted self place }
    {
        if !is_level(self.value) {
            return Err(Refusal::ValueOffScale { place });
        }
        if !is_weight(self.weight) {
            return Err(Refusal::WeightOffScale { place });
        }
        Ok(self)
    }

    pub fn is_on_scale(self) -> bool
        ensures { result ≡ on_scale self }
    {
        is_level(self.value) && is_weight(self.weight)
    }
}
