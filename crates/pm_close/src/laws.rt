//! Laws of closures, for the crates above.
ghost use Rattle.pm_close.specs.Closing.{ClosingHasOneAnswer};
ghost use Rattle.pm_close.specs.Laws.{HasOneClosure, EachTreeCloses, ClosureIsRooted};
ghost use Rattle.pm_close.specs.NodeDegrees.{DegreesAreKept};
ghost use Rattle.pm_close.specs.Nodes.{NodesAreVertices};

/// A law: a blossoming tree has one closure, and no other, and that of a balanced tree is a rooted map, so it is plane.
pub fn each_tree_closes_once()
    ensures exists { EachTreeCloses }
    ensures one { HasOneClosure }
    ensures rooted { ClosureIsRooted }
{}

/// A law: there is one answer to a tree that is to be closed, but for want of memory.
#[tactic(auto, using(crate::proofs::OneClosing::closes_once))]
pub fn closing_answer_is_unique()
    ensures { ClosingHasOneAnswer }
{}

/// A law: each node of a tree is a vertex of its closure, from the node's edge to its parent through its entries in order.
/// So the node's degree is that of the vertex, whatever leaf the tree hangs on.
pub fn nodes_are_vertices()
    ensures { NodesAreVertices }
{}

/// A law: each vertex of the closure of a balanced tree has the degree of a node of the tree, and of each degree there are
/// as many vertices as nodes.
pub fn degrees_are_kept()
    ensures { DegreesAreKept }
{}
