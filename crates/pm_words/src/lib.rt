//! Words of whole numbers, each at least -1: their good starts, and the plane trees of good words.
#![tactic(auto)]

mod laws;
mod plane;
mod starts;

pub use laws::cycle_lemma;
pub use plane::{PlaneTree, tree_of_word, trees_are_words, word_of_tree};
pub use starts::{good_starts, rotate};

#[cfg(test)]
mod tests;
