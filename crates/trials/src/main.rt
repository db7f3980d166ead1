// Runs the listing, the stored form and the measures on good, bad and random input, and prints what they answer and write.
#![tactic(auto)]

mod counts;
mod damage;
mod measured;
mod random;
mod rooms;
mod trips;

use listing::{Answer, fit_listing, listing};
use reading::Refusal;
use std::io;

pub(crate) type Sample = [u8; 21];

// L and the readings 1, 4, 2, 6, each of weight 1.
const SAMPLE: Sample = [
    b'L', 4, 0, 4, 0, 1, 0, 4, 0, 2, 0, 6, 0, 1, 0, 1, 0, 1, 0, 1, 0,
];

// More bytes than any listing here has.
pub(crate) const ROOM: usize = 64;

// Prints the listing of an input, or its refusal.
pub(crate) fn show(rt: &impl Print, input: &[u8]) -> io::Result<()> {
    // The listing writes to a slice that it is lent.
    let mut output = [0; ROOM];
    match listing(input, &mut output) {
        Ok(count) => rt.write_all(&output[..count]),
        Err(refusal) => println!(rt; "{refusal}"),
    }
}

// The first so many bytes of the sample.
fn truncated(rt: &impl Print) -> io::Result<()> {
    for length in 0..=SAMPLE.len() {
        print!(rt; "first {length} bytes: ")?;
        show(rt, &SAMPLE[..length])?;
    }
    Ok(())
}

// The sample with another letter.
fn under(letter: u8) -> Sample {
    let mut input = SAMPLE;
    input[0] = letter;
    input
}

// The sample with every byte for its letter: prints what is granted, and counts what is refused by its byte.
fn lettered(rt: &impl Print) -> io::Result<()> {
    for letter in 0..=u8::MAX {
        let input = under(letter);
        if listing(&input, &mut [0; ROOM]).is_ok() {
            show(rt, &input)?;
        }
    }
    let refused = (0..=u8::MAX)
        .filter(|&letter| {
            listing(&under(letter), &mut [0; ROOM]) == Err(Refusal::UnknownLetter { byte: letter })
        })
        .count();
    println!(rt; "letters: {refused} refused by their byte")
}

// The sample with other sizes.
fn sized(rt: &impl Print) -> io::Result<()> {
    for (values, weights) in [
        (0u16, 0u16),
        (3, 3),
        (5, 5),
        (1_024, 1_024),
        (1_025, 1_025),
        (65_535, 65_535),
        (4, 3),
        (4, 260),
        (1_025, 1_024),
    ] {
        let mut input = SAMPLE;
        input[1..3].copy_from_slice(&values.to_le_bytes());
        input[3..5].copy_from_slice(&weights.to_le_bytes());
        print!(rt; "sizes {values} {weights}: ")?;
        show(rt, &input)?;
    }
    Ok(())
}

// The answer for C, in numbers.
fn exported(rt: &impl Print, input: &[u8], output: &mut [u8]) -> io::Result<()> {
    let Answer {
        written,
        place,
        number,
        site,
    } = fit_listing(input, output);
    println!(rt; "for C: written {written} place {place} number {number} site {site}")
}

fn main(rt: HostRuntime) -> io::Result<()> {
    let alloc = rt.alloc();
    truncated(&rt)?;
    lettered(&rt)?;
    sized(&rt)?;
    exported(&rt, &SAMPLE, &mut [0; ROOM])?;
    exported(&rt, &SAMPLE, &mut [0; 20])?;
    exported(&rt, b"?", &mut [0; ROOM])?;
    exported(&rt, &SAMPLE[..20], &mut [0; ROOM])?;
    counts::each_count(&rt, alloc)?;
    rooms::each_room(&rt, &SAMPLE)?;
    damage::one_byte(&rt, alloc, &SAMPLE)?;
    trips::there_and_back(&rt, alloc)?;
    measured::each_list(&rt)
}
