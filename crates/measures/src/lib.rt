// The three measures: A adds weighted distances, S adds weighted squares, L takes the largest distance.
#![tactic(auto)]

mod absolute;
mod largest;
mod levels;
mod samples;
mod squared;
mod theorems;

pub use absolute::Absolute;
pub use largest::Largest;
pub use squared::Squared;
pub use theorems::{
    absolute_keeps_its_formulas, definitions_mean_what_they_say, largest_keeps_its_formulas,
    preferred_is_smallest_of_least, squared_keeps_its_formulas,
};

#[cfg(test)]
mod tests;
