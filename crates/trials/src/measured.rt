// Random lists under the three measures: the level that each prefers, and what it departs by there and elsewhere.
ghost use Rattle.std.specs.Prelude.{◌<◌, ◌≤◌};

use crate::random::Random;
use isotonic::Measure;
use measures::{Absolute, Largest, Squared};
use reading::{LIMIT, LOWEST, Reading, Readings};
use std::{array, io};

// A reading of a narrow range, so that lists have equal values and means that end in a half. The cast is of less
// than 9.
fn close(random: &mut Random) -> Reading {
    Reading {
        value: random.next(9) as i32 - 5,
        weight: random.next(3) + 1,
    }
}

// Prints the preferred level and the departures at it, at the lowest level and at another one. The letter is only
// printed. The crate `figures` prints other departures.
fn show(
    rt: &impl Print,
    letter: char,
    measure: impl Measure,
    rows: &[Reading],
    other: i32,
) -> io::Result<()> {
    let list = Readings::of(rows);
    let Some(level) = measure.preferred(list) else {
        return println!(rt; "{letter} nothing");
    };
    let (Some(here), Some(low), Some(there)) = (
        measure.departure(list, level),
        measure.departure(list, LOWEST),
        measure.departure(list, other),
    ) else {
        return println!(rt; "{letter} {level} nothing");
    };
    println!(rt; "{letter} {level} {here} {low} {there}")
}

// Three calls, since no closure is generic over the measure.
fn each_measure(rt: &impl Print, rows: &[Reading], other: i32) -> io::Result<()> {
    show(rt, 'A', Absolute, rows, other)?;
    show(rt, 'S', Squared, rows, other)?;
    show(rt, 'L', Largest, rows, other)
}

// Lists of a few readings close together.
fn narrow(rt: &impl Print, random: &mut Random) -> io::Result<()> {
    for turn in 0..40 {
        // All are drawn, so that the draws stay the same whatever the length.
        let rows: [Reading; 6] = array::from_fn(|_| close(random));
        let length = turn % 7;
        println!(rt; "{length} readings close together")?;
        each_measure(rt, &rows[..length], 2)?;
    }
    Ok(())
}

// 1, 3, 9, 19, and so on to 723.
fn length_at(turn: usize) -> usize
    requires { turn < 20 }
    ensures { result ≤ LIMIT }
{
    2 * turn * turn + 1
}

// Lists of more and more readings over the whole scale. It draws and measures otherwise than `narrow`.
fn wide(rt: &impl Print, random: &mut Random) -> io::Result<()> {
    for turn in 0..20 {
        // All are drawn here too.
        let rows: [Reading; LIMIT] = array::from_fn(|_| random.reading());
        let other = random.level();
        let length = length_at(turn);
        println!(rt; "{length} readings over the scale")?;
        each_measure(rt, &rows[..length], other)?;
    }
    Ok(())
}

pub(crate) fn each_list(rt: &impl Print) -> io::Result<()> {
    let mut random = Random::new(7);
    narrow(rt, &mut random)?;
    wide(rt, &mut random)
}
