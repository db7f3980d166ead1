// Listings of profiles whose count has one digit, two, three and four, and of one reading off the scale.
use crate::show;
use reading::LIMIT;
use std::alloc::{AllocError, Global};
use std::io;

// A value and a weight in their stored widths. The tests of `stored` make such bytes too, but want sizes that lie.
#[derive(Clone, Copy)]
struct Row {
    value: i16,
    weight: u16,
}

const USUAL: Row = Row {
    value: 0,
    weight: 1,
};

// A and these rows behind it: their count twice, their values, then their weights.
fn profile(alloc: Global, rows: &[Row]) -> Result<Vec<u8>, AllocError> {
    // No profile here is longer than its size can say.
    let count = u16::try_from(rows.len()).unwrap_or(u16::MAX).to_le_bytes();
    let values = rows.iter().map(|row| row.value.to_le_bytes());
    let weights = rows.iter().map(|row| row.weight.to_le_bytes());
    let mut bytes = vec![in alloc; b'A']?;
    for word in [count, count].into_iter().chain(values).chain(weights) {
        bytes.extend_from_slice(&word)?;
    }
    Ok(bytes)
}

// `rt` and `alloc` are two handles that `main` gives, and no fact ties them.
fn each_length(rt: &impl Print, alloc: Global) -> io::Result<()> {
    for count in [0u16, 1, 9, 10, 99, 100, 999, 1_000, 1_023, 1_024, 1_025] {
        let rows = vec![in alloc; USUAL; usize::from(count)]?;
        show(rt, &profile(alloc, &rows)?)?;
    }
    Ok(())
}

// A full profile whose row at one index is not the usual one.
fn with_odd(alloc: Global, index: usize, odd: Row) -> Result<Vec<u8>, AllocError> {
    let mut rows = [USUAL; LIMIT];
    if let Some(row) = rows.get_mut(index) {
        *row = odd;
    }
    profile(alloc, &rows)
}

fn each_odd(rt: &impl Print, alloc: Global) -> io::Result<()> {
    let low_and_light = Row {
        value: -30_001,
        weight: 0,
    };
    let heavy = Row {
        value: 30_000,
        weight: 1_001,
    };
    for index in [0, 1, LIMIT - 2, LIMIT - 1] {
        show(rt, &with_odd(alloc, index, low_and_light)?)?;
        show(rt, &with_odd(alloc, index, heavy)?)?;
    }
    Ok(())
}

pub(crate) fn each_count(rt: &impl Print, alloc: Global) -> io::Result<()> {
    each_length(rt, alloc)?;
    each_odd(rt, alloc)
}
