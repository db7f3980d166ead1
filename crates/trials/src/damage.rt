// A sample with one byte changed at a time: how often each refusal comes, at which places, and that it changes nothing.
ghost use Rattle.std.specs.Prelude.{◌<◌, length};

use crate::rooms::{FILLER, untouched};
use crate::{ROOM, Sample};
use listing::listing;
use std::alloc::{AllocError, Global};
use std::collections::BTreeMap;
use std::{fmt, io};

// What came of so many inputs: granted, or refused under each number.
#[derive(Drop)]
struct Tally {
    granted: u32,
    // By the numbers that are printed.
    refused: BTreeMap<u8, u32>,
    places: usize,
    spoiled: u32,
}

impl Tally {
    fn new(alloc: Global) -> Self {
        Tally {
            granted: 0,
            refused: BTreeMap::new(alloc),
            places: 0,
            spoiled: 0,
        }
    }

    fn note(&mut self, input: &[u8]) -> Result<(), AllocError> {
        let mut output = [FILLER; ROOM];
        let Err(refusal) = listing(input, &mut output) else {
            self.granted = self.granted.saturating_add(1);
            return Ok(());
        };
        let count = self.refused.entry(refusal.number())?.or_insert(0);
        *count = count.saturating_add(1);
        self.places = self.places.saturating_add(refusal.place());
        if !untouched(&output) {
            self.spoiled = self.spoiled.saturating_add(1);
        }
        Ok(())
    }

    // The sample with each byte in turn at one index.
    fn note_bytes_at(&mut self, at: usize, sample: &Sample) -> Result<(), AllocError>
        requires { at < length sample.now }
    {
        for byte in 0..=u8::MAX {
            let mut input = *sample;
            input[at] = byte;
            self.note(&input)?;
        }
        Ok(())
    }

    fn of_one_byte_changed(alloc: Global, sample: &Sample) -> Result<Self, AllocError> {
        let mut tally = Tally::new(alloc);
        // The index itself is what varies.
        for at in 0..sample.len() {
            tally.note_bytes_at(at, sample)?;
        }
        Ok(tally)
    }
}

impl fmt::Display for Tally {
    fn fmt<W: fmt::Write>(&self, f: &mut fmt::Formatter<W>) -> fmt::Result {
        let Tally {
            granted,
            places,
            spoiled,
            ..
        } = self;
        write!(
            f,
            "{granted} granted, places add up to {places}, {spoiled} outputs spoiled"
        )
    }
}

pub(crate) fn one_byte(rt: &impl Print, alloc: Global, sample: &Sample) -> io::Result<()> {
    let tally = Tally::of_one_byte_changed(alloc, sample)?;
    println!(rt; "one byte changed: {tally}")?;
    for (number, count) in &tally.refused {
        println!(rt; "one byte changed: refused {number} came {count} times")?;
    }
    Ok(())
}
