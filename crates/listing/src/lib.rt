// The listing of a stored profile under a measure, as bytes.
#![tactic(auto)]

mod export;
mod letters;
mod page;
mod prints;

pub use export::{Answer, fit_listing};
pub use letters::Letter;
pub use prints::listing;

#[cfg(test)]
mod tests;
