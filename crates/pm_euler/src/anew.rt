//! A tree planted anew at one of its two free leaves, and closed there.
ghost use Rattle.std.specs.Prelude.{◌<◌, IfOk};
ghost use Rattle.pm_trees.specs.Replanting.{IsAlike};
ghost use Rattle.pm_trees.specs.Word.{contour};
ghost use Rattle.pm_match.specs.Pair.{IsBalanced};
ghost use Rattle.pm_euler.specs.PlantedAnew.{IsFreeLeaf, IsPlantedAnew};
ghost use Rattle.pm_euler.specs.Sampled.{IsClosedUnnamed};

use pm_close::close_balanced;
use pm_map::RootedMap;
use pm_match::free_leaves;
use pm_trees::{Tree, replant};
use std::alloc::{AllocError, Global};

/// The closure of a tree that is planted at a free leaf, and the number in it of the leaf that was the plant before.
#[derive(Drop)]
pub(crate) struct ClosedAnew {
    pub(crate) map: RootedMap,
    pub(crate) old_plant: u32,
}

/// The tree, planted at its free leaf of this number, as a map: the second and the third step of sampling. The darts are
/// named as they were met.
pub(crate) fn closed_anew(alloc: Global, tree: &Tree, free: u64) -> Result<ClosedAnew, AllocError>
    requires { free < 2 }
    ensures { IfOk result (λ closed. IsClosedUnnamed tree.now free closed.map closed.old_plant) }
{
    let anew = plant_anew(alloc, tree, free)?;
    let map = close_balanced(alloc, &anew.tree)?;
    // Its contract says that the map is a rooted one.
    let _edges = map.edges();
    Ok(ClosedAnew {
        map,
        old_plant: anew.old_plant,
    })
}

/// A tree planted at a free leaf, and the number in it of the leaf that was the plant before.
#[derive(Drop)]
struct PlantedAnew {
    tree: Tree,
    old_plant: u32,
}

/// The tree planted at its free leaf of this number: the first one, counted along the contour from the plant on, is 0, and
/// the second one is 1.
fn plant_anew(alloc: Global, tree: &Tree, free: u64) -> Result<PlantedAnew, AllocError>
    requires { free < 2 }
    ensures anew { IfOk result (λ anew. IsPlantedAnew tree.now free anew.tree anew.old_plant) }
    ensures balanced { IfOk result (λ anew. IsBalanced (contour anew.tree)) }
    ensures alike { IfOk result (λ anew. IsAlike tree.now anew.tree) }
{
    // Its contract says that they are those of a blossoming tree.
    let _letters = tree.letters();
    let place = free_leaf(tree, free);
    let leaf = tree.leaves_before(place);
    let replanted = replant(alloc, tree, leaf)?;
    let leaves = tree.leaves();
    Ok(PlantedAnew {
        tree: replanted,
        old_plant: (leaves - leaf) % leaves,
    })
}

/// The place of the free leaf of this number.
fn free_leaf(tree: &Tree, free: u64) -> u32
    requires { free < 2 }
    ensures { IsFreeLeaf (contour tree.now) free result }
{
    let (first, second) = free_leaves(tree);
    if free == 0 { first } else { second }
}
