//! From a map back to the tree that was planted anew.
ghost use Rattle.std.specs.Prelude.{ℕ, ◌<◌, List, length, IfOk};
ghost use Rattle.pm_limits.specs.declared.TheConstants.{MAX_DEGREE};
ghost use Rattle.pm_map.specs.ClassRules.{AllAdmitted};
ghost use Rattle.pm_map.specs.Rotation.{structure_of};
ghost use Rattle.pm_map.specs.declared.admitted.Degrees.TheVariants.{EvenUpTo};
ghost use Rattle.pm_match.specs.Pair.{IsFree};
ghost use Rattle.pm_open.specs.Opening.{IsOpening};
ghost use Rattle.pm_trees.specs.Blossoming.{leaves};
ghost use Rattle.pm_trees.specs.Leaves.{IsLeafAt};
ghost use Rattle.pm_trees.specs.Word.{contour};
ghost use Rattle.pm_euler.specs.PlantedAnew.{IsFreeLeaf};
ghost use Rattle.pm_euler.specs.Unplanted.{IsUnplanted};

use pm_map::RootedMap;
use pm_match::free_leaves;
use pm_open::open_even;
use pm_trees::{Tree, replant};
use std::alloc::{AllocError, Global};

/// A tree, and the number of the free leaf at which it is planted anew.
#[derive(Drop)]
pub(crate) struct Unplanted {
    pub(crate) tree: Tree,
    pub(crate) free: u64,
}

/// The tree and the free leaf that give the map, where the old plant is the leaf of this number of the map's opening.
pub(crate) fn unplant(
    alloc: Global,
    map: &RootedMap,
    old_plant: u32,
) -> Result<Unplanted, AllocError>
    requires some { 0 < length map.now.sigma }
    requires degrees { AllAdmitted (structure_of map.now) (EvenUpTo MAX_DEGREE) }
    requires leaf { (opening : List ℕ) → IsOpening map.now opening → old_plant < leaves opening }
    ensures { IfOk result (λ unplanted. IsUnplanted map.now old_plant unplanted.tree unplanted.free) }
{
    let opening = open_even(alloc, map)?;
    let tree = replant(alloc, &opening, old_plant)?;
    let leaves = opening.leaves();
    let plant = (leaves - old_plant) % leaves;
    let free = number_of_free(&tree, plant);
    Ok(Unplanted { tree, free })
}

/// Which of the two free leaves the leaf of this number is, which is free.
fn number_of_free(tree: &Tree, leaf: u32) -> u64
    requires { (place : ℕ) → IsLeafAt (contour tree.now) leaf place → IsFree (contour tree.now) place }
    ensures free { (place : ℕ) → IsLeafAt (contour tree.now) leaf place → IsFreeLeaf (contour tree.now) result place }
    ensures few { result < 2 }
{
    let (first, _) = free_leaves(tree);
    if tree.leaves_before(first) == leaf {
        0
    } else {
        1
    }
}
