// The measure L: the largest distance counts, weights are not read, and the middle of the values is preferred.
ghost use Rattle.std.specs.Prelude.{◌≡◌, max};
ghost use Rattle.reading.specs.Readings.{rows_of};
ghost use Rattle.isotonic.specs.Answers.{combination_answer, departure_answer, preferred_answer};
ghost use Rattle.measures.specs.Largest.{largest_departs, largest_prefers};
ghost use Rattle.measures.specs.Samples.{sampled};
ghost use Rattle.measures.specs.Values.{largest, smallest, values};
ghost use Rattle.measures.specs.Farthest.{largest_empty, largest_joined, larger_combines, largest_bounded};
ghost use Rattle.measures.specs.Middles.{largest_nearer, largest_between, largest_raised};

use crate::levels::distance_from;
use crate::samples::Sample;
use isotonic::{Measure, has_combination, has_departure};
use reading::{HIGHEST, LOWEST, Readings};

// The measure L.
#[derive(Clone, Copy, PartialEq, Eq, Debug)]
pub struct Largest;

// The largest |value - level|; 0 for no readings.
#[tactic(auto, using(crate::proofs::Folds::departs_folds))]
fn farthest(list: Readings<'_>, level: i32) -> u64
    ensures { result ≡ largest_departs (rows_of list.entry) level }
{
    list.rows()
        .iter()
        .fold(0, |most: u64, row| most.max(distance_from(*row, level)))
}

// The smallest and the largest value.
#[derive(Clone, Copy)]
struct Span {
    low: i32,
    high: i32,
}

// One pass for both, so a loop.
#[tactic(auto, using(crate::proofs::Loops::low_whole, crate::proofs::Loops::high_whole))]
fn span_of(sample: Sample<'_>) -> Span
    ensures low { result.low ≡ smallest (values (sampled sample.entry)) }
    ensures high { result.high ≡ largest (values (sampled sample.entry)) }
{
    let rows = sample.rows();
    let mut low = HIGHEST;
    let mut high = LOWEST;
    for row in rows {
        low = low.min(row.value);
        high = high.max(row.value);
    }
    Span { low, high }
}

// The largest whole number not above half the sum of the two ends, also below zero.
#[tactic(auto, using(crate::proofs::Halves::sum_fits, crate::proofs::Halves::half_preferred))]
fn middle(sample: Sample<'_>) -> i32
    ensures { result ≡ largest_prefers (sampled sample.entry) }
{
    let Span { low, high } = span_of(sample);
    (low + high) >> 1
}

// Its methods read as those of every `Additive`, but for what each computes.
impl Measure for Largest {
    ghost departs = { λ _. largest_departs };

    ghost combined = { λ _ x y. max x y };

    ghost prefers = { λ _. largest_prefers };

    // The seven laws, from the two ends of the values.
    ghost empty = { λ m. largest_empty };

    ghost joined = { λ m. largest_joined };

    ghost combining = { λ m. larger_combines };

    ghost bounded = { λ m. largest_bounded };

    ghost nearer = { λ m. largest_nearer };

    ghost between = { λ m. largest_between };

    ghost raised = { λ m. largest_raised };

    fn departure(self, list: Readings<'_>, level: i32) -> Option<u64>
        ensures { result ≡ departure_answer largest_departs (rows_of list.entry) level }
    {
        // Not `then`: its closure would want clauses of its own, and without them the proof did not close.
        has_departure(list, level)
            .then_some(list)
            .map(|list| farthest(list, level))
    }

    fn combination(self, first: u64, second: u64) -> Option<u64>
        ensures { result ≡ combination_answer (λ x y. max x y) first second }
    {
        has_combination(first, second).then(|| first.max(second))
    }

    fn preferred(self, list: Readings<'_>) -> Option<i32>
        ensures { result ≡ preferred_answer largest_prefers (rows_of list.entry) }
    {
        Sample::of(list).map(middle)
    }
}
