//! Replanting: the same plane tree, planted at another of its leaves.
ghost use Rattle.std.specs.Prelude.{◌<◌, IfOk};
ghost use Rattle.pm_trees.specs.Blossoming.{leaves};
ghost use Rattle.pm_trees.specs.Replanted.{IsReplanted};
ghost use Rattle.pm_trees.specs.Replanting.{IsAlike};

use crate::leaf_places::leaf_place;
use crate::letters::LEAF;
use crate::tree::Tree;
use pm_brackets::turned;
use std::alloc::{AllocError, Global};

/// The same plane tree, planted at the leaf of this number, which is below the number of leaves: leaves are numbered from 0
/// along the contour, and leaf 0 is the plant.
///
/// The contour of the answer is that of the tree, read cyclically from that leaf on. Leaves and buds keep their letters; of
/// the two brackets of an edge the one that is met first becomes the `(`, and the other one the `)`.
///
/// # Errors
///
/// Only where there is no memory left.
pub fn replant(alloc: Global, tree: &Tree, leaf: u32) -> Result<Tree, AllocError>
    requires { leaf < leaves tree.now }
    ensures replanted { IfOk result (λ replanted. IsReplanted tree.now leaf replanted) }
    ensures alike { IfOk result (λ replanted. IsAlike tree.now replanted) }
{
    let start = leaf_place(tree, leaf);
    let letters = turned(alloc, LEAF, tree.letters(), start)?;
    Ok(Tree { letters })
}
