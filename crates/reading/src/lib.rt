// Readings and their scale, refusals, lists of readings, and bounded lists over a caller's slice.
#![tactic(auto)]

mod list;
mod refusals;
mod scale;
mod slots;

pub use list::Readings;
pub use refusals::{Refusal, Site};
pub use scale::{HIGHEST, LIMIT, LOWEST, Reading, is_level};
pub use slots::Bounded;

#[cfg(test)]
mod tests;
