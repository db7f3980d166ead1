// fitlist: a measure letter and a stored profile from standard input, their listing to standard output.
#![tactic(auto)]

use listing::listing;
use std::alloc::Global;
use std::io;
use std::io::{Read, Write};

// What lies behind this many bytes of the input is not read.
const INPUT_LIMIT: u64 = 65_536;

// A listing longer than this is refused.
const OUTPUT_ROOM: usize = 65_536;

fn run(alloc: Global, input: impl Read + Drop, output: &mut impl Write) -> io::Result<()> {
    let mut bytes = Vec::new(alloc);
    input.take(INPUT_LIMIT).read_to_end(&mut bytes)?;
    // The listing writes to a slice that it is lent.
    let mut text = vec![in alloc; 0; OUTPUT_ROOM]?;
    match listing(&bytes, &mut text) {
        Ok(count) => output.write_all(&text[..count]),
        Err(refusal) => writeln!(output, "{refusal}"),
    }
}

fn main(rt: HostRuntime) -> io::Result<()> {
    run(rt.alloc(), rt.stdin(), &mut rt.stdout())
}

#[cfg(test)]
mod tests {
    use super::*;
    use std::test::Fail;

    // What fitlist prints for a letter, sizes of 0 and zeros behind them, so many bytes in all.
    fn printed(alloc: Global, length: usize) -> io::Result<Vec<u8>> {
        let mut input = vec![in alloc; 0; length]?;
        if let Some(first) = input.first_mut() {
            *first = b'A';
        }
        let mut output = Vec::new(alloc);
        run(alloc, input.as_slice(), &mut output)?;
        Ok(output)
    }

    #[test]
    fn takes_the_first_65_536_bytes_as_the_whole_input(rt: HostRuntime) -> Result<(), Fail> {
        for (length, text) in [
            (65_535, "refused 9 65534\n"),
            (65_536, "refused 9 65535\n"),
            (65_537, "refused 9 65535\n"),
            (200_000, "refused 9 65535\n"),
        ] {
            assert_eq!(rt; printed(rt.alloc(), length)?.as_slice(), text.as_bytes());
        }
        Ok(())
    }

    // Two tests with a table each, so that each says what it is about.
    #[test]
    fn prints_a_listing_or_a_refusal(rt: HostRuntime) -> Result<(), Fail> {
        for (length, text) in [
            (0, "refused 8 0\n"),
            (1, "refused 9 0\n"),
            (5, "measure A readings 0\n"),
        ] {
            assert_eq!(rt; printed(rt.alloc(), length)?.as_slice(), text.as_bytes());
        }
        Ok(())
    }
}
