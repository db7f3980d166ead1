// Stretches of a list of readings, put to any measure.
ghost use Rattle.std.specs.Prelude.{◌≡◌, ℕ, ◌*◌, ◌≤◌, length, Some};
ghost use Rattle.reading.specs.Readings.{rows_of};
ghost use Rattle.isotonic.specs.Answers.{departure_answer};
ghost use Rattle.isotonic.specs.Bounds.{one_most};
ghost use Rattle.reading.specs.Lists.{stretch};

use crate::measure::Measure;
use reading::Readings;

// What the readings at places `first` to `last` depart by at a level. Whatever the measure, that is
// no more than a single reading can depart by, times their number.
pub fn stretch_departure<M: Measure>(
    measure: M,
    list: Readings<'_>,
    first: usize,
    last: usize,
    level: i32,
) -> Option<u64>
    ensures value { result ≡ departure_answer (M.departs measure) (stretch (rows_of list.entry) first last) level }
    ensures within { (d : ℕ) → result ≡ Some d → d ≤ one_most * length (stretch (rows_of list.entry) first last) }
{
    measure.departure(list.stretch(first, last), level)
}
