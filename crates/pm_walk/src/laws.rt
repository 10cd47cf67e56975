//! Laws of the walk, for the crates above.
ghost use Rattle.pm_walk.specs.Laws.{WalkedEdgesAreNested, WalkHasOneNumbering};
ghost use Rattle.pm_walk.specs.Led.{WalkedIsLed};

/// A law: where the darts of a plane structure are numbered along its walk, the edges that are cut are nested, and so are
/// the others.
pub fn walked_edges_are_nested()
    ensures { WalkedEdgesAreNested }
{}

/// A law: where the darts of a structure are numbered along its walk, darts that do not pass lead from the root's vertex to
/// all vertices, and darts that pass from the root's face to all faces.
pub fn walked_darts_are_led()
    ensures { WalkedIsLed }
{}

/// A law: the numbers that a walk gives to the darts are the only ones. Two structures that are the same, each numbered along
/// its walk, with tests of darts that agree, have the same numbers.
pub fn walk_has_one_numbering()
    ensures { WalkHasOneNumbering }
{}
