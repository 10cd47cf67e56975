//! The closing of blossoming trees into rooted maps.
#![tactic(auto)]

mod closing;
mod joining;
mod laws;
mod levels;
mod one_pass;
mod rotation;

pub use closing::{CloseRefusal, Closed, close_balanced, close_map, close_paired, close_tree};
pub use laws::{
    closing_answer_is_unique, degrees_are_kept, each_tree_closes_once, nodes_are_vertices,
};
pub use levels::Levels;

#[cfg(test)]
mod tests;
