//! Blossoming trees: plane trees with buds and leaves, planted at a leaf, written as words.
#![tactic(auto)]

mod bracketing;
mod degrees;
mod laws;
mod leaf_places;
mod letters;
mod nodes;
mod pairs;
mod patterns;
mod profile;
mod read;
mod replanting;
mod tree;

pub use bracketing::brackets;
pub use degrees::profile_of;
pub use laws::{
    answer_is_unique, entries_are_own, profile_answer_is_unique, profiles_are_kept,
    trees_are_replanted,
};
pub use leaf_places::leaf_place;
pub use letters::{BUD, LEAF, letter_at};
pub use patterns::{SLOT, pattern, pattern_count, patterns_are_ranked, rank};
pub use profile::{Profile, ProfileRefusal};
pub use read::read_tree;
pub use replanting::replant;
pub use tree::{Tree, TreeRefusal};

#[cfg(test)]
mod profile_tests;
#[cfg(test)]
mod tests;
