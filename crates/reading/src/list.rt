// A list of readings: a part of a slice of rows, each of them on the scale. Places are counted from 1.
ghost use Rattle.std.specs.Prelude.{◌≡◌, [], length};
ghost use Rattle.std.specs.List.{prefix_len};
ghost use Rattle.reading.specs.Scale.{Scaled, on_scale, scaled_front};

use crate::scale::Reading;

// Borrowed rows that are all on the scale.
#[derive(Clone, Copy)]
pub struct Readings<'a> {
    rows: &'a [Reading],
    ghost scaled: { Scaled rows.now },
}

// How many rows stand before the first that is off the scale.
fn scaled_count(rows: &[Reading]) -> usize
    ensures { result ≡ prefix_len on_scale rows.now }
{
    rows.iter().take_while(|row| row.is_on_scale()).count()
}

impl<'a> Readings<'a> {
    ghost use Rattle.reading.specs.Lists.{at_place, stretch};
    ghost use Rattle.reading.specs.Readings.{rows_of};

    pub fn none() -> Readings<'a>
        ensures { rows_of result ≡ [] }
    {
        Readings { rows: &[] }
    }

    // The rows before the first that is off the scale: all of them where each is on it.
    #[tactic(auto, using(crate::proofs::Parts::scaled_taken))]
    pub fn of(rows: &'a [Reading]) -> Readings<'a>
        ensures { rows_of result ≡ scaled_front rows.now }
    {
        Readings {
            rows: &rows[..scaled_count(rows)],
        }
    }

    pub fn len(self) -> usize
        ensures { result ≡ length (rows_of self.entry) }
    {
        self.rows.len()
    }

    pub fn rows(self) -> &'a [Reading]
        ensures { result.now ≡ rows_of self.entry }
    {
        self.rows
    }

    // The reading at a place, if there is one.
    pub fn at(self, place: usize) -> Option<Reading>
        ensures { result ≡ at_place (rows_of self.entry) place }
    {
        // Both ends by hand: by `get` it takes twice the instructions, and by `contains` the proof does not close.
        if place == 0 || place > self.rows.len() {
            return None;
        }
        Some(self.rows[place - 1])
    }

    // The readings at places `first` to `last`, as far as there are any.
    #[tactic(auto, using(crate::proofs::Parts::stretch_clamped))]
    pub fn stretch(self, first: usize, last: usize) -> Readings<'a>
        ensures { rows_of result ≡ stretch (rows_of self.entry) first last }
    {
        let to = last.min(self.rows.len());
        let from = first.saturating_sub(1).min(to);
        Readings {
            rows: &self.rows[from..to],
        }
    }
}
