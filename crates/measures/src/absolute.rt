// The measure A: weighted absolute distances add up, and the weighted median is preferred.
ghost use Rattle.std.specs.Prelude.{◌≡◌, ◌%◌, ◌^◌};
ghost use Rattle.isotonic.specs.Answers.{preferred_answer};
ghost use Rattle.measures.specs.Absolute.{absolute_cost, absolute_prefers, counted, weight_up_to};
ghost use Rattle.measures.specs.Medians.{absolute_small, absolute_bends, absolute_first, absolute_shifts};
ghost use Rattle.measures.specs.Samples.{sampled};
ghost use Rattle.reading.specs.Readings.{rows_of};

use crate::levels::{LAST_PLACE, distance_from, level_at};
use crate::samples::Sample;
use isotonic::Additive;
use reading::{HIGHEST, Reading, Readings};

// The measure A.
#[derive(Clone, Copy, PartialEq, Eq, Debug)]
pub struct Absolute;

// The weight of a reading whose value is up to the level, and else 0.
fn counted(row: Reading, level: i32) -> u64
    ensures { result ≡ counted row level }
{
    if row.value <= level {
        u64::from(row.weight)
    } else {
        0
    }
}

// The weight of all values up to a level. A sum in common with that of the costs would be public, and ask
// something of its callers.
fn weight_up_to(sample: Sample<'_>, level: i32) -> u64
    ensures { result ≡ weight_up_to (sampled sample.entry) level }
{
    sample.rows().iter().map(|row| counted(*row, level)).sum()
}

// The smallest level with at least half of the weight up to it, by bisecting the levels. The library bisects
// slices alone.
#[tactic(auto, using(crate::proofs::Counts::up_to_few, crate::proofs::Counts::prefers_place, crate::proofs::Counts::half_tells))]
fn median(sample: Sample<'_>) -> i32
    ensures { result ≡ absolute_prefers (sampled sample.entry) }
{
    let whole = weight_up_to(sample, HIGHEST);
    let mut low = 0;
    let mut high = LAST_PLACE;
    while low < high {
        let middle = low + (high - low) / 2;
        if 2 * weight_up_to(sample, level_at(middle)) >= whole {
            high = middle;
        } else {
            low = middle + 1;
        }
    }
    level_at(low)
}

// Its cost bends upwards, and the weighted median is the first level of least cost.
impl Additive for Absolute {
    ghost costs = { λ _. absolute_cost };

    ghost least = { λ _. absolute_prefers };

    ghost small = { λ _. absolute_small };

    ghost bends = { λ _. absolute_bends };

    ghost shifts = { λ _. absolute_shifts };

    ghost first = { λ _. absolute_first };

    // Weight times |value - level|.
    fn cost(self, row: Reading, level: i32) -> u64
        ensures { result ≡ absolute_cost row level % 2 ^ 64 }
    {
        u64::from(row.weight) * distance_from(row, level)
    }

    fn least_level(self, list: Readings<'_>) -> Option<i32>
        ensures { result ≡ preferred_answer absolute_prefers (rows_of list.entry) }
    {
        Sample::of(list).map(median)
    }
}
