// Measures that add up a cost of each reading: whoever gives the cost and its laws has a measure.
ghost use Rattle.std.specs.Prelude.{◌≡◌, ℕ, ◌+◌, ◌%◌, ◌^◌, ◌≤◌, List, length, ℤ};
ghost use Rattle.isotonic.specs.Answers.{combination_answer, departure_answer, preferred_answer};
ghost use Rattle.isotonic.specs.Costs.{CostBends, CostIsWithin, CostShifts, PrefersFirst, total};
ghost use Rattle.isotonic.specs.Summed.{adding_combines, sum_between, sum_bounded, sum_empty, sum_joined, sum_nearer, sum_raised};
ghost use Rattle.reading.specs.Readings.{rows_of};
ghost use Rattle.reading.specs.Scale.{Level, limit};
ghost use Rattle.reading.specs.declared.scale.Reading.{Reading as Row};

use crate::answers::{has_combination, has_departure};
use crate::measure::Measure;
use reading::{Reading, Readings};

// What one reading costs at a level, and the level that a list prefers by its costs together. It owes four laws:
// three of the cost, and that what is preferred is the first level at which the costs add up to the least.
// From these every `Additive` is a `Measure`, with all of its laws.
pub trait Additive: Copy {
    ghost costs: { Self → Row → ℤ → ℕ };

    ghost least: { Self → List Row → ℤ };

    // Any reading and any number has its cost, as far as a word holds it. On the scale a word holds it whole.
    fn cost(self, row: Reading, level: i32) -> u64
        ensures { result ≡ costs self row level % 2 ^ 64 };

    // The level that the readings prefer; nothing unless `has_preferred`.
    fn least_level(self, list: Readings<'_>) -> Option<i32>
        ensures { result ≡ preferred_answer (least self) (rows_of list.entry) };

    // Four laws, which each `impl` proves.
    ghost small: { (c : Self) → CostIsWithin (costs c) };

    ghost bends: { (c : Self) → CostBends (costs c) };

    ghost shifts: { (c : Self) → CostShifts (costs c) };

    ghost first: { (c : Self) → PrefersFirst (costs c) (least c) };
}

// The sum of the costs of all readings.
fn added<C: Additive>(cost: C, list: Readings<'_>, level: i32) -> u64
    requires few { length (rows_of list) ≤ limit }
    requires level { Level level }
    ensures { result ≡ total (C.costs cost) (rows_of list.entry) level }
{
    list.rows().iter().map(|row| cost.cost(*row, level)).sum()
}

impl<C: Additive> Measure for C {
    ghost departs = { λ c. total (C.costs c) };

    ghost combined = { λ _ x y. x + y };

    ghost prefers = { λ c. C.least c };

    ghost empty = { λ c. sum_empty (C.costs c) };

    ghost joined = { λ c. sum_joined (C.costs c) };

    ghost combining = { λ c. adding_combines };

    ghost bounded = { λ c. sum_bounded (C.costs c) (C.small c) };

    ghost nearer = { λ c. sum_nearer (C.costs c) (C.least c) (C.bends c) (C.first c) };

    ghost between = { λ c. sum_between (C.costs c) (C.least c) (C.bends c) (C.first c) };

    ghost raised = { λ c. sum_raised (C.costs c) (C.least c) (C.bends c) (C.first c) (C.shifts c) };

    fn departure(self, list: Readings<'_>, level: i32) -> Option<u64>
        ensures { result ≡ departure_answer (total (C.costs self)) (rows_of list.entry) level }
    {
        // Not `then`: its closure would want clauses of its own, and without them the proof did not close.
        has_departure(list, level)
            .then_some(list)
            .map(|list| added(self, list, level))
    }

    fn combination(self, first: u64, second: u64) -> Option<u64>
        ensures { result ≡ combination_answer (λ x y. x + y) first second }
    {
        has_combination(first, second).then(|| first + second)
    }

    fn preferred(self, list: Readings<'_>) -> Option<i32>
        ensures { result ≡ preferred_answer (C.least self) (rows_of list.entry) }
    {
        self.least_level(list)
    }
}
