//! Laws of walks and of the darts that lead to all vertices and faces, for the crates above.
ghost use Rattle.pm_led.specs.Heads.{VerticesHaveHeads};
ghost use Rattle.pm_led.specs.LedLaws.{EachLedMapIsWalked, EachWalkedMapIsLed};
ghost use Rattle.pm_led.specs.Orientation.{OneOrientation, WalkedMapHasOneOrientation};
ghost use Rattle.pm_led.specs.TurnedEdge.{TurnedOrientationIsOne};

/// A law: in a plane structure with a dart, where darts that do not pass a test lead from the root's vertex to all vertices,
/// and darts that pass it from the root's face to all faces, the walk that the test makes meets every dart. The edges that
/// it cuts are nested along it, and so are the others.
pub fn each_led_map_is_walked()
    ensures { EachLedMapIsWalked }
{}

/// A law: where the walk meets every dart of a structure, darts lead both ways.
pub fn each_walked_map_is_led()
    ensures { EachWalkedMapIsLed }
{}

/// A law: where the darts of a plane structure are numbered along its walk, each vertex but the root's has exactly one dart
/// of a kept edge at which the walk meets the edge again, and that is its last dart; the root's vertex has none.
pub fn vertices_have_heads()
    ensures { VerticesHaveHeads }
{}

/// A law: where the darts of a plane structure are numbered along its walk, and of each edge just one dart goes out, no other
/// orientation lets out as many darts at each vertex and leads from the root's face to all faces.
pub fn one_orientation()
    ensures { OneOrientation }
{}

/// A law: the same where the walk meets every dart of a plane structure, whatever the numbers of its darts.
pub fn walked_map_has_one_orientation()
    ensures { WalkedMapHasOneOrientation }
{}

/// A law: in a plane structure with a dart, two orientations with the same out-degrees and the same direction of the root's
/// edge are one, where with that edge turned over the first leads both ways and the second leads to all faces.
pub fn turned_orientation_is_one()
    ensures { TurnedOrientationIsOne }
{}
