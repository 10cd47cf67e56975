ghost use Rattle.std.specs.Prelude.{ℕ, List};
ghost use Rattle.pm_map.specs.CanonicalLaws.{CanonicalIsRooted, CanonicalIsUnique, CanonicalTellsMaps, FormIsRooted, FormIsUnique, FormTellsStructures};
ghost use Rattle.pm_map.specs.ClassLaws.{DartsTellSimple, DegreeCountsDarts};
ghost use Rattle.pm_map.specs.DistanceLaws.{DistanceIsSymmetric, DistancesAreCarried, EachFaceHasDistance, LevelsAreDistances};
ghost use Rattle.pm_map.specs.Classes.{IsBipartite, IsEulerian, IsGeneral, IsQuartic, IsTriangulation};
ghost use Rattle.pm_map.specs.DualLaws.{DualExchangesCounts, DualIsRooted, DualIsStructure, DualTwiceIsSame, DualsTell, FaceDegreeCountsDarts};
ghost use Rattle.pm_map.specs.Parts.{HasOneMapAnswer};
ghost use Rattle.pm_map.specs.SameLaws.{EachStructureIsARotation, IsKept, SameIsReflexive, SameIsSymmetric, SameIsTransitive};

/// What canonical maps are for, as a law to call upon; nothing is computed. The canonical map of a rooted map is a rooted
/// map, a rooted map has no two canonical maps, and two rooted maps are the same, up to a renumbering of their darts,
/// exactly where their canonical maps are equal.
pub fn canonical_is_unique()
    ensures rooted { CanonicalIsRooted }
    ensures unique { CanonicalIsUnique }
    ensures tells { CanonicalTellsMaps }
{}

/// The same of plane structures, whatever their twins: nothing is computed. Where one has no more edges than a map may
/// have, its canonical map is a rooted map, it has no two, and it is the same as another exactly where their canonical
/// maps are equal.
pub fn canonical_form_is_unique()
    ensures rooted { FormIsRooted }
    ensures unique { FormIsUnique }
    ensures tells { FormTellsStructures }
{}

/// There is one answer to a rotation and a root, but for want of memory; nothing is computed.
#[tactic(auto, using(crate::proofs::UniqueParts::one_map_answer))]
pub fn map_answer_is_unique()
    ensures { HasOneMapAnswer }
{}

/// The degree of a vertex, the least number of steps around it that lead back to a dart, is the number of its darts;
/// nothing is computed.
pub fn degree_counts_darts()
    ensures { DegreeCountsDarts }
{}

/// A map is simple exactly where no dart's edge is a loop and none has a double; nothing is computed.
pub fn darts_tell_simple()
    ensures { DartsTellSimple }
{}

/// What face distances are, as a law to call upon; nothing is computed. Numbers for the darts are levels of the faces
/// exactly where they are the distances from the root's face; in a connected structure each face has such a distance; a
/// face is as far from another as that from it; and a renumbering of the darts keeps the distances.
pub fn face_levels_are_distances()
    ensures levels { LevelsAreDistances }
    ensures each { EachFaceHasDistance }
    ensures symmetric { DistanceIsSymmetric }
    ensures carried { DistancesAreCarried }
{}

/// To be the same, up to a renumbering of the darts, is an equivalence of structures, and each structure is the same as
/// that of a rotation and a root; nothing is computed.
pub fn same_is_equivalence()
    ensures reflexive { SameIsReflexive }
    ensures symmetric { SameIsSymmetric }
    ensures transitive { SameIsTransitive }
    ensures numbered { EachStructureIsARotation }
{}

/// Structures that are the same are in the same classes, with the same sizes; nothing is computed.
pub fn classes_are_kept()
    ensures quartic { (n : ℕ) → IsKept (λ s. IsQuartic s n) }
    ensures general { (n : ℕ) → IsKept (λ s. IsGeneral s n) }
    ensures eulerian { (pairs : List (ℕ × ℕ)) → IsKept (λ s. IsEulerian s pairs) }
    ensures bipartite { (pairs : List (ℕ × ℕ)) → IsKept (λ s. IsBipartite s pairs) }
    ensures triangulation { (n : ℕ) → IsKept (λ s. IsTriangulation s n) }
{}

/// What duals are, as a law to call upon; nothing is computed. The dual of a structure is a structure, and that of a
/// rooted map a rooted map. Its vertices are the faces, and its faces the vertices; so the degree of a face, the least
/// number of steps around it that lead back to a dart, is the number of its darts. The dual of the dual is the same as
/// the structure, and two structures are the same exactly where their duals are.
pub fn dual_is_a_map()
    ensures structure { DualIsStructure }
    ensures rooted { DualIsRooted }
    ensures counts { DualExchangesCounts }
    ensures degrees { FaceDegreeCountsDarts }
    ensures twice { DualTwiceIsSame }
    ensures tells { DualsTell }
{}
