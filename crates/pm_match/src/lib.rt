//! The pairs of buds and leaves of a blossoming tree.
#![tactic(auto)]

mod balance;
mod laws;
mod lows;
mod pairing;

pub use balance::{is_balanced, plant_bud};
pub use laws::pairs_are_turned;
pub use lows::free_leaves;
pub use pairing::{Pairing, matching};

#[cfg(test)]
mod tests;
