//! Lists of numbers below given bounds, drawn from the stream of a seed.
#![tactic(auto)]

mod drawing;
mod generator;

pub use drawing::draw_list;
pub use generator::rng_of;

#[cfg(test)]
mod tests;
