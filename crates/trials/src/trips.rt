// Random readings, written and read back, and what was read written again.
use crate::random::Random;
use crate::rooms::{FILLER, untouched};
use reading::{LIMIT, Reading, Readings};
use std::alloc::{AllocError, Global};
use std::{array, io};
use stored::{read, write};

const BYTES: usize = 4 + 4 * LIMIT;

// The stored form of these readings, if they have one and nothing is written behind it.
fn written(alloc: Global, rows: &[Reading]) -> Result<Option<Vec<u8>>, AllocError> {
    let mut bytes = vec![in alloc; FILLER; BYTES]?;
    let Ok(length) = write(Readings::of(rows), &mut bytes) else {
        return Ok(None);
    };
    if !bytes.get(length..).is_some_and(untouched) {
        return Ok(None);
    }
    bytes.truncate(length);
    Ok(Some(bytes))
}

// The readings of this stored form, if it is one.
fn read_back(alloc: Global, bytes: &[u8]) -> Result<Option<Vec<Reading>>, AllocError> {
    let filler = Reading {
        value: 0,
        weight: 1,
    };
    let mut rows = vec![in alloc; filler; LIMIT]?;
    let Ok(count) = read(bytes, &mut rows) else {
        return Ok(None);
    };
    rows.truncate(count);
    Ok(Some(rows))
}

// Whether so many random readings come back as they were, from bytes that come back too.
fn returns(alloc: Global, random: &mut Random, count: usize) -> Result<bool, AllocError> {
    // All are drawn, so that the draws stay the same whatever the count.
    let rows: [Reading; LIMIT] = array::from_fn(|_| random.reading());
    let rows = &rows[..count.min(LIMIT)];
    let Some(bytes) = written(alloc, rows)? else {
        return Ok(false);
    };
    let Some(back) = read_back(alloc, &bytes)? else {
        return Ok(false);
    };
    Ok(back.as_slice() == rows && written(alloc, &back)? == Some(bytes))
}

pub(crate) fn there_and_back(rt: &impl Print, alloc: Global) -> io::Result<()> {
    let mut random = Random::new(1);
    // `try_fold` would pass a failed allocation on, and is no plainer.
    let mut returned = 0u32;
    for turn in 0..205 {
        if returns(alloc, &mut random, 5 * turn + 4)? {
            returned += 1;
        }
    }
    println!(rt; "written and read back: {returned} of 205 lists")
}
