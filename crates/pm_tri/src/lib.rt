//! Stem trees, from which simple triangulations are closed: plane trees whose nodes have two stems each, written as words.
#![tactic(auto)]

mod balance;
mod bits;
mod bounds;
mod laws;
mod letters;
mod nodes;
mod read;
mod replanting;
mod run_laws;
mod runs;
mod size;
mod tree;
mod whole_laws;

pub use balance::{Imbalance, why_not_balanced};
pub use bits::{bits_of_tri_tree, tri_tree_of_bits};
pub use bounds::{tri_choice_bounds, tri_residue_bounds};
pub use laws::{
    stem_trees_are_bits, stem_trees_are_replanted, tri_answer_is_unique,
    triangulation_answer_is_unique, triangulation_bounds_are_limits,
};
pub use letters::STEM;
pub use read::read_tri_tree;
pub use replanting::tri_replant;
pub use run_laws::{stem_trees_have_two_runs, stems_close_at_sides, tri_imbalance_is_unique};
pub use runs::run_starts;
pub use size::tri_size;
pub use tree::{TriTree, TriTreeRefusal};
pub use whole_laws::whole_trees_close_ahead;

#[cfg(test)]
mod bit_tests;
#[cfg(test)]
mod bound_tests;
#[cfg(test)]
mod size_tests;
#[cfg(test)]
mod tests;
