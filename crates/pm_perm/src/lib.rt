//! Permutations of the numbers below a bound, and their cycles.
#![tactic(auto)]

mod checking;
mod counting;
mod exchanging;
mod inverting;
mod laws;
mod leading;

pub use checking::is_permutation;
pub use counting::count_cycles;
pub use exchanging::exchange;
pub use inverting::inverse;
pub use laws::{
    cutting_merges_faces, exchange_splits_or_joins, exchange_splits_or_joins_lists,
    joining_makes_a_face, leaders_tell_cycles, nested_pairs_split, pairs_split_at_most,
    renumbering_keeps_cycles, renumbering_keeps_part_maps,
};
pub use leading::leaders;

#[cfg(test)]
mod tests;
