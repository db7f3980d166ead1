// The interface that every measure implements, with the laws that it owes.
ghost use Rattle.std.specs.Prelude.{◌≡◌, ℕ, List, ℤ};
ghost use Rattle.isotonic.specs.Answers.{combination_answer, departure_answer, preferred_answer};
ghost use Rattle.isotonic.specs.Laws.{CombinesInAnyOrder, EmptyDepartsByZero, JoinedDeparturesCombine, JoinedPrefersBetween, NearerDepartsNoMore, OneDepartsWithin, RaisedPrefersNoLower};
ghost use Rattle.reading.specs.Readings.{rows_of};
ghost use Rattle.reading.specs.declared.scale.Reading.{Reading};

use reading::Readings;

// A measure means three things, which have no limits: what a list of readings departs by at a level,
// what two departures come to together, and the level that a list prefers. It keeps seven laws of them,
// for readings on the scale and for levels. It answers three questions by that meaning.
pub trait Measure: Copy {
    ghost departs: { Self → List Reading → ℤ → ℕ };

    ghost combined: { Self → ℕ → ℕ → ℕ };

    ghost prefers: { Self → List Reading → ℤ };

    // What the readings depart by at a level; nothing unless `has_departure`. A level is a plain number, since
    // callers count and compare levels.
    fn departure(self, list: Readings<'_>, level: i32) -> Option<u64>
        ensures { result ≡ departure_answer (departs self) (rows_of list.entry) level };

    // Two departures together; nothing unless `has_combination`.
    fn combination(self, first: u64, second: u64) -> Option<u64>
        ensures { result ≡ combination_answer (combined self) first second };

    // The level that the readings prefer; nothing unless `has_preferred`.
    fn preferred(self, list: Readings<'_>) -> Option<i32>
        ensures { result ≡ preferred_answer (prefers self) (rows_of list.entry) };

    // The seven laws: a ghost member below the last method is a law, and each `impl` proves it.
    ghost empty: { (m : Self) → EmptyDepartsByZero (departs m) };

    ghost joined: { (m : Self) → JoinedDeparturesCombine (departs m) (combined m) };

    ghost combining: { (m : Self) → CombinesInAnyOrder (combined m) };

    ghost bounded: { (m : Self) → OneDepartsWithin (departs m) };

    ghost nearer: { (m : Self) → NearerDepartsNoMore (departs m) (prefers m) };

    ghost between: { (m : Self) → JoinedPrefersBetween (prefers m) };

    ghost raised: { (m : Self) → RaisedPrefersNoLower (prefers m) };
}
