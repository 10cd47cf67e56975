//! Laws of the distances, for the crates above.
ghost use Rattle.pm_distances.specs.AcrossEdges.{DistancesDifferByOne};

/// A law: where all degrees are even, however great, the distances of the two faces of an edge from the root's face differ
/// by exactly one.
pub fn face_distances_differ_by_one()
    ensures { DistancesDifferByOne }
{}
