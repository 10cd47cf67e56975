//! The objects of plane trees: their arrangements, the starts of their preorders, and the codes of several ranges of them.
#![tactic(auto)]

mod bounds;
mod codes;
mod order;
mod ranges;
mod starts;

pub use bounds::push_code_bounds;
pub use codes::codes_by_range;
pub use order::{objects_of_codes, turned_back};
pub use ranges::arities_of;
pub use starts::starts_of;

#[cfg(test)]
mod tests;
