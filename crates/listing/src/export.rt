// The listing for a caller in C, with its answer in plain numbers.
ghost use Rattle.std.specs.Prelude.{◌≡◌};
ghost use Rattle.reading.specs.Lists.{delivered, filled};
ghost use Rattle.listing.specs.Numbers.{answer_of};
ghost use Rattle.listing.specs.Text.{listing_of};

use crate::prints::listing;
use reading::Refusal;

// A count, or a refusal. `number` is 0 where the call was granted; else `written` is 0.
// A struct of numbers, since C has no `Result`.
#[repr(C)]
#[derive(Clone, Copy, PartialEq, Eq, Hash, Debug)]
pub struct Answer {
    pub written: u64,
    pub place: u64,
    pub number: u32,
    pub site: u32,
}

// `usize` has no `From` into `u64`.
impl From<Result<usize, Refusal>> for Answer {
    ghost from_gives = { λ outcome answer. answer ≡ answer_of outcome };

    fn from(outcome: Result<usize, Refusal>) -> Answer {
        match outcome {
            Ok(written) => Answer {
                written: written as u64,
                place: 0,
                number: 0,
                site: 0,
            },
            Err(refusal) => Answer {
                written: 0,
                place: refusal.place() as u64,
                number: refusal.number().into(),
                site: refusal.site().into(),
            },
        }
    }
}

// As `listing`, in plain numbers. The crate `listing_c` exports it under this name. Each of the three calls says
// the same, since each is read alone.
pub fn fit_listing(input: &[u8], output: &mut [u8]) -> Answer
    ensures value { result ≡ answer_of (delivered (listing_of input.now) output.old) }
    ensures after { output.new ≡ filled (listing_of input.now) output.old }
{
    Answer::from(listing(input, output))
}
