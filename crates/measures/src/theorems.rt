// The theorems on the measures and their definitions, each the promise of a function that does nothing. The first
// three are alike, but each is on definitions of its own. The last two answer a number, as their callers know them.
ghost use Rattle.std.specs.Prelude.{◌≡◌, ◌+◌, max};
ghost use Rattle.measures.specs.Absolute.{absolute_departs, absolute_prefers};
ghost use Rattle.measures.specs.Claims.{AllPreferSmallestOfLeast, ExtremesAreReached, FlooredIsLargestNotAbove, NearestIsNearest};
ghost use Rattle.measures.specs.Largest.{largest_departs, largest_prefers};
ghost use Rattle.measures.specs.Squared.{squared_departs, squared_prefers};

use crate::absolute::Absolute;
use crate::largest::Largest;
use crate::squared::Squared;
use isotonic::Measure;

// A departs, combines and prefers by its formulas.
pub fn absolute_keeps_its_formulas()
    ensures departs { ⟦<Absolute as Measure>⟧.departs ≡ (λ _. absolute_departs) }
    ensures combined { ⟦<Absolute as Measure>⟧.combined ≡ (λ _ x y. x + y) }
    ensures prefers { ⟦<Absolute as Measure>⟧.prefers ≡ (λ _. absolute_prefers) }
{}

// So does S.
pub fn squared_keeps_its_formulas()
    ensures departs { ⟦<Squared as Measure>⟧.departs ≡ (λ _. squared_departs) }
    ensures combined { ⟦<Squared as Measure>⟧.combined ≡ (λ _ x y. x + y) }
    ensures prefers { ⟦<Squared as Measure>⟧.prefers ≡ (λ _. squared_prefers) }
{}

// And L.
pub fn largest_keeps_its_formulas()
    ensures departs { ⟦<Largest as Measure>⟧.departs ≡ (λ _. largest_departs) }
    ensures combined { ⟦<Largest as Measure>⟧.combined ≡ (λ _ x y. max x y) }
    ensures prefers { ⟦<Largest as Measure>⟧.prefers ≡ (λ _. largest_prefers) }
{}

// Under A, S and L the preferred level is the smallest of the levels at which a list departs by the least.
// The clause has no name, as callers cite it, and so stands alone: the number means nothing.
pub fn preferred_is_smallest_of_least() -> u8
    ensures { AllPreferSmallestOfLeast }
{
    0
}

// What the definitions call smallest, largest, floored and nearest is that.
#[tactic(auto, using(crate::specs::Extremes::extremes_reached, crate::specs::Quotients::nearest_nearest))]
pub fn definitions_mean_what_they_say() -> u8
    ensures extremes { ExtremesAreReached }
    ensures floored { FlooredIsLargestNotAbove }
    ensures nearest { NearestIsNearest }
    ensures value { result ≡ 0 }
{
    0
}
