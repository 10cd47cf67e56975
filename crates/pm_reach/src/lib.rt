//! The layers of the faces of a map, by their distances from the root's face; and the maps of a small class.
#![tactic(auto)]

mod counting;
mod laws;
mod layering;
mod lists;
mod map_key;

pub use counting::{CensusList, CensusRefusal, census};
pub use laws::{
    census_counts_lists, census_counts_residues, census_has_each_map_once, class_has_one_census,
    closed_levels_are_layers, map_has_one_layers,
};
pub use layering::{FaceLayers, layers};
pub use lists::MOST_LISTS;

#[cfg(test)]
mod tests;
