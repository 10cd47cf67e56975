//! Quartic maps and maps with given even degrees as classes that can be sampled.
#![tactic(auto)]

mod anew;
mod bounds;
mod eulerian;
mod made;
mod map_profile;
mod object_order;
mod objects;
mod planting;
mod quartic;
mod shape_reading;
mod unplanting;

pub use eulerian::Eulerian;
pub use map_profile::profile_of_even;
pub use quartic::Quartic;

#[cfg(test)]
mod tests;
