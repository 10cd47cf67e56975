//! Laws of layers and of a census.
ghost use Rattle.pm_reach.specs.CensusLaws.{CensusCountsLists, CensusCountsResidues, CensusHasEachMapOnce, ClassHasCensus, ClassHasOneCensus};
ghost use Rattle.pm_reach.specs.LayerLaws.{ClosedLevelsAreLayers, EachMapHasLayers, MapHasOneLayers};

use pm_class::MapClass;

/// A law: each rooted map has one pair of lists as its layers, and no other.
pub fn map_has_one_layers()
    ensures exists { EachMapHasLayers }
    ensures one { MapHasOneLayers }
{}

/// A law: in the closure of a balanced tree the distances are the levels that closing gives.
pub fn closed_levels_are_layers()
    ensures { ClosedLevelsAreLayers }
{}

/// A law of every class: a class and an admissible size have one census, and no other.
pub fn class_has_one_census<C: MapClass>()
    ensures exists { ClassHasCensus C.is_size C.choice_limits C.samples }
    ensures one { ClassHasOneCensus C.is_size C.choice_limits C.samples }
{
    C::is_one_to_one();
}

/// A law of every class: a census has each canonical map of the class and size in one entry, and no other map.
pub fn census_has_each_map_once<C: MapClass>()
    ensures { CensusHasEachMapOnce C.is_size C.choice_limits C.has C.samples }
{
    C::is_one_to_one();
}

/// A law of every class: in a census the number of each canonical map of the class and size is the product of the residue
/// bounds.
pub fn census_counts_residues<C: MapClass>()
    ensures { CensusCountsResidues C.is_size C.choice_limits C.residue_limits C.has C.samples }
{
    C::is_one_to_one();
}

/// A law of every class: in a census the numbers add up to the product of the choice bounds.
pub fn census_counts_lists<C: MapClass>()
    ensures { CensusCountsLists C.is_size C.choice_limits C.samples }
{}
