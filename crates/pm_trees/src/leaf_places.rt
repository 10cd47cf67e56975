//! The leaves, numbered along the contour from the plant, which is leaf 0.
ghost use Rattle.std.specs.Prelude.{◌<◌};
ghost use Rattle.pm_trees.specs.Blossoming.{leaves};
ghost use Rattle.pm_trees.specs.Leaves.{IsLeafAt};
ghost use Rattle.pm_trees.specs.Word.{contour};

use crate::letters::LEAF;
use crate::tree::Tree;
use pm_brackets::nth_letter;

/// The place of the leaf of this number, which is below the number of leaves: leaves are numbered from 0 along the
/// contour, and leaf 0 is the plant.
pub fn leaf_place(tree: &Tree, leaf: u32) -> u32
    requires { leaf < leaves tree.now }
    ensures { IsLeafAt (contour tree.now) leaf result }
{
    nth_letter(tree.letters(), LEAF, leaf)
}
