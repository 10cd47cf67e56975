//! Plane trees with a bud pattern at each node, as blossoming trees: planting and reading.
#![tactic(auto)]

mod kind;
mod planting;
mod reading;

pub use kind::Kind;
pub use planting::plant_plane;
pub use reading::kinds_of_tree;

#[cfg(test)]
mod tests;
