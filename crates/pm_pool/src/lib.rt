//! A store of darts that takes memory once, and then gives, links and takes back darts without any.
#![tactic(auto)]

mod links;
mod plane;
mod pool;
mod room;

pub use plane::PlaneDarts;
pub use pool::{Dart, Pool};
pub use room::{Room, Work};

#[cfg(test)]
mod tests;
