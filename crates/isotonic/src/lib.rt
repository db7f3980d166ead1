// What a measure is: how far readings depart from a level, and the level that they prefer.
#![tactic(auto)]

mod additive;
mod answers;
mod measure;
mod stretches;

pub use additive::Additive;
pub use answers::{COMBINED_MOST, READING_MOST, has_combination, has_departure, has_preferred};
pub use measure::Measure;
pub use stretches::stretch_departure;
