// Levels counted from the lowest on, and distances from a level.
ghost use Rattle.std.specs.Prelude.{◌≡◌, ◌<◌, ◌≤◌, ◌^◌, pos, ◌-ℤ◌};
ghost use Rattle.measures.specs.Values.{distance};

use reading::{HIGHEST, LOWEST, Reading};

// The place of the highest level. Here and below a cast loses nothing, and `try_from` would add a branch that
// never comes.
pub(crate) const LAST_PLACE: u64 = (HIGHEST - LOWEST) as u64;

// The level that is so many above the lowest.
pub(crate) fn level_at(place: u64) -> i32
    requires { place ≤ 60000 }
    ensures { result ≡ pos place -ℤ pos 30000 }
{
    LOWEST + place as i32
}

// |value - level|.
pub(crate) fn distance_from(row: Reading, level: i32) -> u64
    ensures value { result ≡ distance row.value level }
    ensures short { result < 2 ^ 32 }
{
    u64::from(row.value.abs_diff(level))
}
