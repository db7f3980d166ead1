// The measure S: weighted squared distances add up, and the whole number nearest the weighted mean is preferred.
ghost use Rattle.std.specs.Prelude.{◌≡◌, ◌*◌, ◌%◌, ◌^◌};
ghost use Rattle.isotonic.specs.Answers.{preferred_answer};
ghost use Rattle.measures.specs.Means.{squared_small, squared_bends, squared_first, squared_shifts};
ghost use Rattle.measures.specs.Samples.{sampled};
ghost use Rattle.measures.specs.Squared.{place_of, squared_cost, squared_prefers, weighted_places};
ghost use Rattle.measures.specs.Values.{whole_weight};
ghost use Rattle.reading.specs.Readings.{rows_of};
ghost use Rattle.reading.specs.Scale.{OnScale};

use crate::levels::{distance_from, level_at};
use crate::samples::Sample;
use isotonic::Additive;
use reading::{LOWEST, Reading, Readings};

// The measure S.
#[derive(Clone, Copy, PartialEq, Eq, Debug)]
pub struct Squared;

// What a list weighs, and the sum of weight times value with the values counted from the lowest
// level on, so that nothing is below zero.
#[derive(Clone, Copy)]
struct Weighed {
    whole: u64,
    sum: u64,
}

// Weight times value, with the value so counted.
fn weighted_place(row: Reading) -> u64
    requires { OnScale row }
    ensures { result ≡ row.weight * place_of row }
{
    u64::from(row.weight) * distance_from(row, LOWEST)
}

// One pass for both, so a loop.
#[tactic(auto, using(crate::proofs::Sizes::whole_next, crate::proofs::Sizes::places_next))]
fn weigh(sample: Sample<'_>) -> Weighed
    ensures whole { result.whole ≡ whole_weight (sampled sample.entry) }
    ensures sum { result.sum ≡ weighted_places (sampled sample.entry) }
{
    let rows = sample.rows();
    let mut whole: u64 = 0;
    let mut sum: u64 = 0;
    for row in rows {
        whole += u64::from(row.weight);
        sum += weighted_place(*row);
    }
    Weighed { whole, sum }
}

// The whole number nearest the weighted mean; a half goes to the lower one.
#[tactic(auto, using(crate::proofs::Sizes::whole_few, crate::proofs::Sizes::places_few, crate::specs::Weights::whole_positive, crate::proofs::Sizes::quotient_within, crate::proofs::Sizes::prefers_quotient))]
fn mean(sample: Sample<'_>) -> i32
    ensures { result ≡ squared_prefers (sampled sample.entry) }
{
    let Weighed { whole, sum } = weigh(sample);
    level_at((2 * sum + whole - 1) / (2 * whole))
}

// Its cost bends upwards, and the whole number nearest the weighted mean is the first level of least cost.
impl Additive for Squared {
    ghost costs = { λ _. squared_cost };

    ghost least = { λ _. squared_prefers };

    ghost small = { λ _. squared_small };

    ghost bends = { λ _. squared_bends };

    ghost shifts = { λ _. squared_shifts };

    ghost first = { λ _. squared_first };

    // Weight times the square of value - level.
    fn cost(self, row: Reading, level: i32) -> u64
        ensures { result ≡ squared_cost row level % 2 ^ 64 }
    {
        let far = distance_from(row, level);
        let whole = u128::from(row.weight) * u128::from(far * far);
        (whole % (1 << 64)) as u64
    }

    fn least_level(self, list: Readings<'_>) -> Option<i32>
        ensures { result ≡ preferred_answer squared_prefers (rows_of list.entry) }
    {
        Sample::of(list).map(mean)
    }
}
