//! Laws of closures.
ghost use Rattle.pm_triclose.specs.ClosureLaws.{ClosureFacesAreTriangles, ClosuresAreMaps, ClosuresArePlane, ClosuresAreRenamed, ClosuresAreSame, ClosuresAreSimple, ClosuresAreTriangulations, ClosuresAreWhole, EachBalancedTreeCloses, EachTreeBalances};

/// A structure is the closure of a balanced stem tree exactly where it is that of its whole tree.
pub fn closures_are_whole()
    ensures { ClosuresAreWhole }
{}

/// The closure of a balanced stem tree with `n` nodes is plane, with `3n` edges, `n + 2` vertices and `2n` faces. So a rotation
/// and a root whose structure is the closure are a rooted map. Each face has degree 3.
pub fn closures_are_plane()
    ensures plane { ClosuresArePlane }
    ensures maps { ClosuresAreMaps }
    ensures triangles { ClosureFacesAreTriangles }
{}

/// A balanced stem tree has one closure: two of them are the same, but for the names of their darts.
pub fn closures_are_same()
    ensures { ClosuresAreSame }
{}

/// What is the same as a closure, but for the names of its darts, is a closure of the same tree.
pub fn closures_are_renamed()
    ensures { ClosuresAreRenamed }
{}

/// Each balanced stem tree has a closure, and each stem tree is balanced where it is planted at one of two of its stems.
pub fn stem_trees_have_closures()
    ensures balanced { EachBalancedTreeCloses }
    ensures planted { EachTreeBalances }
{}

/// The closure of a balanced stem tree has no loop, and no two edges with the same ends (Poulalhon and Schaeffer 2006). So that of
/// a tree with `n` nodes is a simple triangulation of size `n`.
pub fn closures_are_simple()
    ensures simple { ClosuresAreSimple }
    ensures triangulations { ClosuresAreTriangulations }
{}
