//! Opening: from a plane map with even degrees back to the balanced tree that closes to it.
#![tactic(auto)]

mod laws;
mod opening;
mod walking;

pub use laws::{
    each_map_opens_once, levels_are_face_distances, opening_answer_is_unique, openings_keep_degrees,
};
pub use opening::{OpenRefusal, open_even, open_map};

#[cfg(test)]
mod tests;
