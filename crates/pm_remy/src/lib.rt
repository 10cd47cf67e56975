//! Growth of binary trees with labelled leaves: a list of bounded choices is a tree, one to one.
#![tactic(auto)]

mod growth;
mod label_tree;
mod laws;
mod levels;
mod links;
mod ungrowing;

pub use growth::{grow, ungrow};
pub use label_tree::{LabelTree, labels, relabel, shape, tree_of_shape};
pub use laws::{growth_is_one_to_one, words_are_one_to_one};

#[cfg(test)]
mod law_tests;
#[cfg(test)]
mod tests;
