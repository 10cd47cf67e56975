//! How far the faces of a map are from the root's face, over edges.
#![tactic(auto)]

mod distances;
mod laws;

pub use distances::face_distances;
pub use laws::face_distances_differ_by_one;

#[cfg(test)]
mod tests;
