// Short lists whose levels and departures were worked out by hand.
ghost use Rattle.figures.specs.Figures.{WorkedFigures};

use isotonic::Measure;
use measures::{Absolute, Largest, Squared};
use reading::{Reading, Readings};
use std::io;

// The definitions come to the worked figures, in one computed comparison.
pub fn figures_of_the_definitions()
    ensures { WorkedFigures }
{}

// One line, as in tests: no library crate has it.
fn row(value: i32, weight: u32) -> Reading {
    Reading { value, weight }
}

// Prints the level that the rows prefer under a measure, and what they depart by there. The letter is only printed.
fn show(rt: &impl Print, letter: char, measure: impl Measure, rows: &[Reading]) -> io::Result<()> {
    let list = Readings::of(rows);
    let Some(level) = measure.preferred(list) else {
        return println!(rt; "{letter} nothing");
    };
    match measure.departure(list, level) {
        Some(departure) => println!(rt; "{letter} level {level} departure {departure}"),
        None => println!(rt; "{letter} level {level}"),
    }
}

// Three calls, since no closure is generic over the measure.
fn each_measure(rt: &impl Print, name: &str, rows: &[Reading]) -> io::Result<()> {
    println!(rt; "{name}")?;
    show(rt, 'A', Absolute, rows)?;
    show(rt, 'S', Squared, rows)?;
    show(rt, 'L', Largest, rows)
}

pub(crate) fn each_list(rt: &impl Print) -> io::Result<()> {
    each_measure(rt, "no readings", &[])?;
    each_measure(rt, "-30000", &[row(-30_000, 1)])?;
    each_measure(rt, "0 -1", &[row(0, 1), row(-1, 1)])?;
    each_measure(rt, "5 of weight 3, 1", &[row(5, 3), row(1, 1)])?;
    each_measure(rt, "2 1", &[row(2, 1), row(1, 1)])?;
    each_measure(rt, "-2 -5", &[row(-2, 1), row(-5, 1)])?;
    each_measure(
        rt,
        "9, -9 of weight 1000, 9",
        &[row(9, 1), row(-9, 1_000), row(9, 1)],
    )
}
