//! The laws of medial maps: calls that do nothing, whose clauses are the laws.
ghost use Rattle.pm_medial.specs.Colouring.{ColouringIsUnique, FacesHaveTwoColours};
ghost use Rattle.pm_medial.specs.DualDegrees.{DualExchangesClasses, DualExchangesDegrees, DualIsPlane};
ghost use Rattle.pm_medial.specs.MedialLaws.{EachQuarticHasUnmedial, MedialCounts, MedialHasOneAnswer, MedialIsQuartic, MedialOfUnmedialIsSame, MedialsTell, OnlyQuarticHaveUnmedial, UnmedialCounts, UnmedialOfMedialIsSame, UnmedialsTell};

/// A law: the medial structure of a plane structure with a dart is plane, each of its vertices has degree 4, and it has a
/// vertex for each edge, twice as many edges, and a face for each vertex and each face. Two connected structures are the
/// same exactly where their medial structures are. Nothing is computed.
pub fn medial_is_quartic()
    ensures quartic { MedialIsQuartic }
    ensures counts { MedialCounts }
    ensures tells { MedialsTell }
{}

/// A law: medial maps and unmedials undo each other, up to the names of darts. Each map with a dart whose vertices have
/// degree 4 has an unmedial, and no other one has; two maps are the same exactly where their unmedials are. An unmedial has an edge for each
/// vertex of the map. Nothing is computed.
pub fn unmedial_undoes_medial()
    ensures unmedial_of_medial { UnmedialOfMedialIsSame }
    ensures medial_of_unmedial { MedialOfUnmedialIsSame }
    ensures exists { EachQuarticHasUnmedial }
    ensures only { OnlyQuarticHaveUnmedial }
    ensures tells { UnmedialsTell }
    ensures counts { UnmedialCounts }
{}

/// A law: the faces of a plane structure have two colours, with another one across each edge, exactly where all degrees
/// are even, however great; and in one way where the root's face has the colour true. Nothing is computed.
pub fn faces_have_two_colours()
    ensures exactly { FacesHaveTwoColours }
    ensures unique { ColouringIsUnique }
{}

/// A law: a map has one answer of [`crate::medial`], but for want of memory; nothing is computed.
#[tactic(auto, using(crate::proofs::OneMedial::one_medial_answer))]
pub fn medial_answer_is_unique()
    ensures { MedialHasOneAnswer }
{}

/// A law: the dual of a plane structure is plane; its faces have the degrees of the vertices, as its vertices have those of
/// the faces; so the dual exchanges maps with given even degrees of the vertices and those with given even degrees of the
/// faces. Nothing is computed.
pub fn dual_exchanges_degrees()
    ensures plane { DualIsPlane }
    ensures degrees { DualExchangesDegrees }
    ensures classes { DualExchangesClasses }
{}
