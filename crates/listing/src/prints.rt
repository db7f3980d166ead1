// The listing itself: checked, then measured, then printed.
ghost use Rattle.std.specs.Prelude.{◌≡◌, ◌≤◌, length, IfOk};
ghost use Rattle.reading.specs.Lists.{delivered, filled, put_from};
ghost use Rattle.listing.specs.Pages.{Printed};
ghost use Rattle.listing.specs.Text.{heading, listing_of};

use crate::letters::Letter;
use crate::page::Page;
use reading::Refusal;

// What the first line tells.
#[derive(Clone, Copy)]
struct Heading {
    letter: Letter,
    readings: usize,
}

impl Heading {
    #[inline(always)]
    #[tactic(auto, using(crate::proofs::Listings::length_heading, crate::proofs::Listings::put_heading))]
    fn put(self, page: &mut Page<'_>)
        ensures { Printed page.old (heading self.letter self.readings) page.new }
    {
        page.put(b"measure ");
        page.put(&[self.letter.byte()]);
        page.put(b" readings ");
        page.put_number(self.readings);
        page.put(b"\n");
    }

    // Prints the line from the front of a slice on, if it fits there, and answers how long it is.
    // Inlined, a run over no bytes comes to its count alone.
    #[inline(always)]
    #[tactic(auto, using(crate::proofs::Listings::length_heading))]
    fn print(self, output: &mut [u8]) -> usize
        ensures value { result ≡ length (heading self.letter self.readings) }
        ensures after { result ≤ length output.old → output.new ≡ put_from 0 (heading self.letter self.readings) output.old }
    {
        let mut page = Page::new(output);
        self.put(&mut page);
        page.count()
    }
}

// Writes the listing of a letter and the stored profile behind it, and answers its length.
#[tactic(auto, using(crate::proofs::Listings::listing_counted))]
pub fn listing(input: &[u8], output: &mut [u8]) -> Result<usize, Refusal>
    ensures value { result ≡ delivered (listing_of input.now) output.old }
    ensures after { output.new ≡ filled (listing_of input.now) output.old }
    ensures within { IfOk result (λ n. n ≤ length output.old) }
{
    let letter = Letter::of(input)?;
    let readings = stored::check(&input[1..])?;
    let heading = Heading { letter, readings };
    let needed = heading.print(&mut []);
    // Each call tests the room for what it alone has counted; a function for it would be no plainer.
    if needed > output.len() {
        return Err(Refusal::TooLittleRoom { needed });
    }
    heading.print(output);
    Ok(needed)
}
