// Where a measure answers and where it does not, the same for every measure.
ghost use Rattle.std.specs.Prelude.{◌≡◌};
ghost use Rattle.reading.specs.Readings.{rows_of};
ghost use Rattle.isotonic.specs.Answers.{has_combination, has_departure, has_preferred};

use reading::{LIMIT, Readings, is_level};

// The most that a single reading departs by, under any measure.
pub const READING_MOST: u64 = 4_000_000_000_000;

// The most that as many readings as may be held depart by. `usize` has no `From` into `u64`.
pub const COMBINED_MOST: u64 = LIMIT as u64 * READING_MOST;

// Whether there is a departure: the list is within the limit, and the number is a level.
pub fn has_departure(list: Readings<'_>, level: i32) -> bool
    ensures { result ≡ has_departure (rows_of list.entry) level }
{
    list.len() <= LIMIT && is_level(level)
}

// Whether there is a combination: neither part is more than any list within the limit departs by.
pub fn has_combination(first: u64, second: u64) -> bool
    ensures { result ≡ has_combination first second }
{
    first <= COMBINED_MOST && second <= COMBINED_MOST
}

// Whether there is a preferred level: the list is within the limit and has a reading.
pub fn has_preferred(list: Readings<'_>) -> bool
    ensures { result ≡ has_preferred (rows_of list.entry) }
{
    (1..=LIMIT).contains(&list.len())
}
