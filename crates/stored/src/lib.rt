// The stored form of a list of readings: two sizes, then the values, then the weights, two bytes each.
#![tactic(auto)]

mod columns;
mod reads;
mod table;
mod words;
mod writes;

pub use reads::{check, read};
pub use writes::write;

#[cfg(test)]
mod tests;
