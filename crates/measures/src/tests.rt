// Worked figures, and where a measure answers nothing.
use crate::absolute::Absolute;
use crate::largest::Largest;
use crate::squared::Squared;
use isotonic::{COMBINED_MOST, Measure};
use reading::{LIMIT, Reading, Readings};

// One line, as in other tests: no library crate has it.
fn of(value: i32, weight: u32) -> Reading {
    Reading { value, weight }
}

// The level that the rows prefer and what they depart by at it.
fn told(measure: impl Measure, rows: &[Reading]) -> Option<(i32, u64)> {
    let list = Readings::of(rows);
    let level = measure.preferred(list)?;
    Some((level, measure.departure(list, level)?))
}

#[test]
fn three_measures_on_worked_lists(rt: HostRuntime) {
    let lowest = [of(-30_000, 1)];
    assert_eq!(rt; told(Absolute, &lowest), Some((-30_000, 0)));
    assert_eq!(rt; told(Squared, &lowest), Some((-30_000, 0)));
    assert_eq!(rt; told(Largest, &lowest), Some((-30_000, 0)));
    let halves = [of(0, 1), of(-1, 1)];
    assert_eq!(rt; told(Absolute, &halves), Some((-1, 1)));
    assert_eq!(rt; told(Squared, &halves), Some((-1, 1)));
    assert_eq!(rt; told(Largest, &halves), Some((-1, 1)));
    let weighted = [of(5, 3), of(1, 1)];
    assert_eq!(rt; told(Absolute, &weighted), Some((5, 4)));
    assert_eq!(rt; told(Squared, &weighted), Some((4, 12)));
    assert_eq!(rt; told(Largest, &weighted), Some((3, 2)));
}

#[test]
fn nothing_is_answered_beyond_the_limits(rt: HostRuntime) {
    let row = [of(7, 2)];
    let one = Readings::of(&row);
    assert_eq!(rt; Absolute.departure(one, 30_001), None);
    assert_eq!(rt; Squared.departure(one, -30_001), None);
    assert_eq!(rt; Largest.departure(one, i32::MIN), None);
    assert_eq!(rt; Absolute.preferred(Readings::none()), None);
    assert_eq!(rt; Squared.departure(Readings::none(), 5), Some(0));
    let rows = [of(7, 2); 1_025];
    assert_eq!(rt; told(Largest, &rows[..LIMIT]), Some((7, 0)));
    assert_eq!(rt; Largest.departure(Readings::of(&rows), 7), None);
    assert_eq!(rt; Absolute.preferred(Readings::of(&rows)), None);
    assert_eq!(rt;
        Absolute.combination(COMBINED_MOST, COMBINED_MOST),
        Some(8_192_000_000_000_000)
    );
    assert_eq!(rt; Largest.combination(3, COMBINED_MOST), Some(COMBINED_MOST));
    assert_eq!(rt;
        Squared.combination(COMBINED_MOST.saturating_add(1), 0),
        None
    );
    assert_eq!(rt;
        Largest.combination(0, COMBINED_MOST.saturating_add(1)),
        None
    );
}
