// The widest list, the longest list, levels next to the scale, and combinations next to the most: what is answered, and where nothing is.
use isotonic::{COMBINED_MOST, Measure};
use measures::{Absolute, Largest, Squared};
use reading::{LIMIT, Reading, Readings};
use std::fmt::Display;
use std::{array, io};

fn told(rt: &impl Print, name: &str, answer: Option<impl Copy + Display>) -> io::Result<()> {
    match answer {
        Some(number) => println!(rt; "{name} {number}"),
        None => println!(rt; "{name} nothing"),
    }
}

// As many readings as may be held, of the largest weight, at the two ends of the scale in turn.
fn widest() -> [Reading; LIMIT] {
    array::from_fn(|i| Reading {
        value: if i % 2 == 0 { -30_000 } else { 30_000 },
        weight: 1_000,
    })
}

fn departures(rt: &impl Print, measure: impl Measure) -> io::Result<()> {
    let rows = widest();
    let widest = Readings::of(&rows);
    told(rt, "the widest list prefers", measure.preferred(widest))?;
    told(
        rt,
        "it departs at the lowest level by",
        measure.departure(widest, -30_000),
    )?;
    told(rt, "at 1 by", measure.departure(widest, 1))?;
    told(
        rt,
        "below the lowest by",
        measure.departure(widest, -30_001),
    )?;
    told(
        rt,
        "above the highest by",
        measure.departure(widest, 30_001),
    )?;
    let rows = [Reading {
        value: 1,
        weight: 1,
    }; 1_025];
    let longest = Readings::of(&rows);
    told(
        rt,
        "one reading too many departs by",
        measure.departure(longest, 1),
    )?;
    told(rt, "and prefers", measure.preferred(longest))
}

fn combinations(rt: &impl Print, measure: impl Measure) -> io::Result<()> {
    let most = COMBINED_MOST;
    told(rt, "3 and 5 combine to", measure.combination(3, 5))?;
    told(rt, "5 and 3 to", measure.combination(5, 3))?;
    told(
        rt,
        "the most and the most to",
        measure.combination(most, most),
    )?;
    told(
        rt,
        "more than it and 0 to",
        measure.combination(most + 1, 0),
    )?;
    told(
        rt,
        "0 and more than it to",
        measure.combination(0, most + 1),
    )
}

// The letter is only printed.
fn limits_of(rt: &impl Print, letter: char, measure: impl Measure) -> io::Result<()> {
    println!(rt; "under {letter}")?;
    departures(rt, measure)?;
    combinations(rt, measure)
}

// Three calls, since no closure is generic over the measure.
pub(crate) fn each_measure(rt: &impl Print) -> io::Result<()> {
    limits_of(rt, 'A', Absolute)?;
    limits_of(rt, 'S', Squared)?;
    limits_of(rt, 'L', Largest)
}
