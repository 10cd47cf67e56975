//! A stem tree planted anew at the start of one of its two runs, and closed there.
ghost use Rattle.std.specs.Prelude.{◌<◌, IfOk};
ghost use Rattle.pm_tri.specs.Replanting.{IsAlike};
ghost use Rattle.pm_tri.specs.Runs.{IsBalanced};
ghost use Rattle.pm_tri.specs.StemTree.{contour};
ghost use Rattle.pm_trisample.specs.Closed.{IsClosedAnew};
ghost use Rattle.pm_trisample.specs.PlantedAnew.{IsPlantedAnew, IsStartOfRun};

use pm_brackets::letters_before;
use pm_map::RootedMap;
use pm_tri::{STEM, TriTree, run_starts, tri_replant};
use pm_triclose::tri_close_balanced;
use std::alloc::{AllocError, Global};

/// The closure of a stem tree that is planted where a run starts, and the number in it of the stem that was the plant before.
#[derive(Drop)]
pub(crate) struct ClosedAnew {
    pub(crate) map: RootedMap,
    pub(crate) old_plant: u32,
}

/// The tree, planted at the start of the run of this number, as a map. The darts are named as they were met.
pub(crate) fn closed_anew(alloc: Global, tree: &TriTree, run: u64) -> Result<ClosedAnew, AllocError>
    requires { run < 2 }
    ensures { IfOk result (λ closed. IsClosedAnew tree.now run closed.map closed.old_plant) }
{
    let anew = plant_anew(alloc, tree, run)?;
    let map = tri_close_balanced(alloc, &anew.tree)?;
    // Its contract says that the map is a rooted one.
    let _edges = map.edges();
    Ok(ClosedAnew {
        map,
        old_plant: anew.old_plant,
    })
}

/// A stem tree planted anew, and the number in it of the stem that was the plant before.
#[derive(Drop)]
struct PlantedAnew {
    tree: TriTree,
    old_plant: u32,
}

/// The tree planted at the start of the run of this number: the start that comes first, counted along the contour from the plant on,
/// is 0, and the other one is 1.
fn plant_anew(alloc: Global, tree: &TriTree, run: u64) -> Result<PlantedAnew, AllocError>
    requires { run < 2 }
    ensures anew { IfOk result (λ anew. IsPlantedAnew tree.now run anew.tree anew.old_plant) }
    ensures balanced { IfOk result (λ anew. IsBalanced (contour anew.tree)) }
    ensures alike { IfOk result (λ anew. IsAlike tree.now anew.tree) }
{
    // Its contract says that they are those of a stem tree.
    let word = tree.letters();
    let place = start_of_run(alloc, tree, run)?;
    let stem = letters_before(word, STEM, place);
    let replanted = tri_replant(alloc, tree, stem)?;
    let stems = 2 * tree.nodes();
    Ok(PlantedAnew {
        tree: replanted,
        old_plant: (stems - stem) % stems,
    })
}

/// The place of the stem that starts the run of this number.
fn start_of_run(alloc: Global, tree: &TriTree, run: u64) -> Result<u32, AllocError>
    requires { run < 2 }
    ensures { IfOk result (IsStartOfRun (contour tree.now) run) }
{
    let (first, second) = run_starts(alloc, tree)?;
    Ok(if run == 0 { first } else { second })
}
