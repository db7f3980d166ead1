// An example of a measure supplied from outside: L, with its departures told in whole tenths of a decibel.
#![tactic(auto)]

ghost use Rattle.std.specs.Prelude.{◌≡◌, max, refl};
ghost use Rattle.reading.specs.Readings.{rows_of};
ghost use Rattle.isotonic.specs.Answers.{combination_answer, departure_answer, preferred_answer};
ghost use Rattle.measures.specs.Largest.{largest_prefers};
ghost use Rattle.tenths.specs.Tenth.{tenths_departs};
ghost use Rattle.measures.specs.Farthest.{larger_combines};
ghost use Rattle.measures.specs.Middles.{largest_between, largest_raised};
ghost use Rattle.tenths.specs.Tenfold.{tenths_bounded, tenths_joined, tenths_nearer};

use isotonic::Measure;
use measures::Largest;
use reading::Readings;

// The largest distance, in whole tenths. It is written out also where it is as L is, since it shows what a measure wants.
#[derive(Clone, Copy, PartialEq, Eq, Debug)]
pub struct Tenths;

impl Measure for Tenths {
    ghost departs = { λ _. tenths_departs };

    ghost combined = { λ _ x y. max x y };

    ghost prefers = { λ _. largest_prefers };

    // The seven laws: tenths keep the order and the larger of two; the rest is as of L.
    ghost empty = { λ m v level. refl };

    ghost joined = { λ m. tenths_joined };

    ghost combining = { λ m. larger_combines };

    ghost bounded = { λ m. tenths_bounded };

    ghost nearer = { λ m. tenths_nearer };

    ghost between = { λ m. largest_between };

    ghost raised = { λ m. largest_raised };

    fn departure(self, list: Readings<'_>, level: i32) -> Option<u64>
        ensures { result ≡ departure_answer tenths_departs (rows_of list.entry) level }
    {
        Largest
            .departure(list, level)
            .map(|hundredths| hundredths / 10)
    }

    fn combination(self, first: u64, second: u64) -> Option<u64>
        ensures { result ≡ combination_answer (λ x y. max x y) first second }
    {
        Largest.combination(first, second)
    }

    fn preferred(self, list: Readings<'_>) -> Option<i32>
        ensures { result ≡ preferred_answer largest_prefers (rows_of list.entry) }
    {
        Largest.preferred(list)
    }
}

#[cfg(test)]
mod tests {
    use super::*;
    use isotonic::stretch_departure;
    use reading::Reading;

    #[test]
    fn tenths_are_told_whole(rt: HostRuntime) {
        let rows = [
            Reading {
                value: 100,
                weight: 3,
            },
            Reading {
                value: 139,
                weight: 1,
            },
        ];
        let list = Readings::of(&rows);
        assert_eq!(rt; Tenths.preferred(list), Some(119));
        assert_eq!(rt; Tenths.departure(list, 119), Some(2));
        assert_eq!(rt; Tenths.departure(list, 99), Some(4));
        assert_eq!(rt; stretch_departure(Tenths, list, 1, 1, 119), Some(1));
        assert_eq!(rt; stretch_departure(Tenths, list, 2, 1, 119), Some(0));
        assert_eq!(rt; Tenths.combination(7, 4), Some(7));
    }
}
