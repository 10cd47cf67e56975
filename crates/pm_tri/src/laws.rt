//! Laws of stem trees.
ghost use Rattle.pm_tri.specs.Reading.{HasOneAnswer};

/// There is one answer to a word, but for want of memory.
#[tactic(auto, using(crate::proofs::Unique::one_answer))]
pub fn tri_answer_is_unique()
    ensures { HasOneAnswer }
{}

ghost use Rattle.pm_tri.specs.Replanting.{EachStemIsReplanted, ReplantedIsAlike, ReplantedIsUnique, ReplantingIsUndone, StemsAreTurned, StemsAreTwiceNodes};

/// A stem tree has twice as many stems as nodes, the plant counted. It can be planted at each of them, in one way; it stays
/// a stem tree with as many letters, stems and nodes, its stems are counted from the new plant on, and planting it at the
/// old plant undoes it.
pub fn stem_trees_are_replanted()
    ensures count { StemsAreTwiceNodes }
    ensures each { EachStemIsReplanted }
    ensures unique { ReplantedIsUnique }
    ensures alike { ReplantedIsAlike }
    ensures stems { StemsAreTurned }
    ensures undone { ReplantingIsUndone }
{}

ghost use Rattle.pm_map.specs.ClassRules.{IsTriangulationAnswer};
ghost use Rattle.pm_map.specs.Classes.{IsTriangulation};
ghost use Rattle.pm_map.specs.Rotation.{structure_of};
ghost use Rattle.pm_class.specs.Sampling.{HasOneAnswer as HasOneClassAnswer, HasSomeAnswer, IsSizeWhereAnswered};
ghost use Rattle.pm_tri.specs.Triangulations.{IsTriSize, TriangulationsHaveEdges};

/// A simple triangulation of size `n` has `3n` edges and `2n` faces. A map is answered a size by [`crate::tri_size`] exactly
/// where it is a simple triangulation of that size, which is from 1 and has `3n` at most `MAX_EDGES` then; no map has two
/// answers, and none is without one.
pub fn triangulation_answer_is_unique()
    ensures edges { TriangulationsHaveEdges }
    ensures sized { IsSizeWhereAnswered IsTriSize (λ n map. IsTriangulation (structure_of map) n) IsTriangulationAnswer }
    ensures one_answer { HasOneClassAnswer IsTriangulationAnswer }
    ensures some_answer { HasSomeAnswer IsTriangulationAnswer }
{}

ghost use Rattle.pm_tri.specs.Bits.{BitsHaveTrees, BitsTellTrees, TreesHaveBits};

/// Stem trees are one to one with the lists of bits whose weights, 3 of a one and -1 of a zero, sum to -2, reached at the
/// last bit only. A tree with `n` nodes has `4n - 2` bits.
pub fn stem_trees_are_bits()
    ensures bits { TreesHaveBits }
    ensures trees { BitsHaveTrees }
    ensures unique { BitsTellTrees }
{}

ghost use Rattle.pm_tri.specs.Bounds.{TriBoundsAreLimits};

/// At each size the bounds of the choices and those of the residue of a simple triangulation are bounds, and neither too many
/// nor too great.
pub fn triangulation_bounds_are_limits()
    ensures { TriBoundsAreLimits }
{}
