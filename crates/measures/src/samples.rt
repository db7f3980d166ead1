// Lists that prefer a level: they have a reading, and no more than may be held.
ghost use Rattle.std.specs.Prelude.{◌≡◌, ◌<◌, ◌≤◌, length, option_map};
ghost use Rattle.std.specs.Bool.{then_some};
ghost use Rattle.isotonic.specs.Answers.{has_preferred};
ghost use Rattle.reading.specs.Readings.{rows_of};
ghost use Rattle.reading.specs.Scale.{limit};

use isotonic::has_preferred;
use reading::{Reading, Readings};

#[derive(Clone, Copy)]
pub(crate) struct Sample<'a> {
    list: Readings<'a>,
    ghost some: { 0 < length (rows_of list) },
    ghost few: { length (rows_of list) ≤ limit },
}

impl<'a> Sample<'a> {
    ghost use Rattle.measures.specs.Samples.{sampled};

    // The list, where it has a preferred level.
    pub(crate) fn of(list: Readings<'a>) -> Option<Sample<'a>>
        ensures { option_map sampled result ≡ then_some (has_preferred (rows_of list.entry)) (rows_of list.entry) }
    {
        // In a closure the proof of the ghost fields did not close: it would want a clause, that the test passed.
        if !has_preferred(list) {
            return None;
        }
        Some(Sample { list })
    }

    pub(crate) fn rows(self) -> &'a [Reading]
        ensures { result.now ≡ sampled self.entry }
    {
        self.list.rows()
    }
}
