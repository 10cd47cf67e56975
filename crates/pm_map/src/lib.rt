//! Rooted maps: darts with a rotation, in which the darts `2k` and `2k + 1` are twins.
#![tactic(auto)]

mod admitted;
mod class_refusal;
mod counting;
mod darts;
mod degree_table;
mod degrees;
mod edge_numbers;
mod euler;
mod face_walk;
mod laws;
mod marks;
mod parts;
mod reaching;
mod refusal;
mod rooted_map;
mod simple;

pub use admitted::Degrees;
pub use class_refusal::ClassRefusal;
pub use counting::Counts;
pub use darts::twin_of;
pub use edge_numbers::darts_of;
pub use face_walk::FaceWalk;
pub use laws::{
    canonical_form_is_unique, canonical_is_unique, classes_are_kept, darts_tell_simple,
    degree_counts_darts, dual_is_a_map, face_levels_are_distances, map_answer_is_unique,
    same_is_equivalence,
};
pub use refusal::MapRefusal;
pub use rooted_map::RootedMap;
pub use simple::NotSimple;

#[cfg(test)]
mod tests;
