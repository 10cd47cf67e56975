//! Laws of openings, for the crates above.
ghost use Rattle.pm_open.specs.Opening.{OpeningHasOneAnswer};
ghost use Rattle.pm_open.specs.Laws.{ClosedLevelsAreDistances, EachMapOpens, HasOneOpening, LevelsAreFaceDistances, OpeningKeepsDegrees, OpeningKeepsEdges};

/// A law: a rooted map with a dart whose vertices have even degrees up to `MAX_DEGREE` has one opening, and no other
/// (Schaeffer 1997).
pub fn each_map_opens_once()
    ensures exists { EachMapOpens }
    ensures one { HasOneOpening }
{}

/// A law: there is one answer to a map that is to be opened, but for want of memory.
#[tactic(auto, using(crate::proofs::OneOpening::opens_once))]
pub fn opening_answer_is_unique()
    ensures { OpeningHasOneAnswer }
{}

/// A law: in the closure of a balanced tree the level of a place is the distance of its face from the root's face. So the
/// levels that closing gives are the distances of the faces of its map.
#[tactic(auto, using(crate::proofs::KeptByOpening::level_distances))]
pub fn levels_are_face_distances()
    ensures levels { LevelsAreFaceDistances }
    ensures closed { ClosedLevelsAreDistances }
{}

/// A law: of each degree a map has as many vertices as its opening has nodes, and it has as many edges.
pub fn openings_keep_degrees()
    ensures degrees { OpeningKeepsDegrees }
    ensures edges { OpeningKeepsEdges }
{}
