// The listing for a caller in C: a static library with that one call.
#![tactic(auto)]

ghost use Rattle.std.specs.Prelude.{◌≡◌};
ghost use Rattle.listing.specs.Numbers.{answer_of};
ghost use Rattle.listing.specs.Text.{listing_of};
ghost use Rattle.reading.specs.Lists.{delivered, filled};

use listing::Answer;

// As `listing::listing`, its answer in plain numbers. The two slices may not overlap.
// It stands again here because C links a static library, on which no crate may stand.
#[unsafe(no_mangle)]
pub extern "C" fn fit_listing(input: &[u8], output: &mut [u8]) -> Answer
    ensures value { result ≡ answer_of (delivered (listing_of input.now) output.old) }
    ensures after { output.new ≡ filled (listing_of input.now) output.old }
{
    listing::fit_listing(input, output)
}
