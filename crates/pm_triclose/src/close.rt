//! Closing a stem tree to a map.
ghost use Rattle.std.specs.Prelude.{◌≡◌, IfOk};
ghost use Rattle.pm_tri.specs.Runs.{IsBalanced};
ghost use Rattle.pm_tri.specs.StemTree.{contour};
ghost use Rattle.pm_triclose.specs.Closing.{ClosesTo, IsTriClosing};
ghost use Rattle.pm_triclose.specs.declared.close.TriCloseRefusal.TheVariants.{Memory};

use crate::closing::whole_rotation;
use pm_map::RootedMap;
use pm_tri::{Imbalance, TriTree, why_not_balanced};
use std::alloc::{AllocError, Global};

/// Why a stem tree wasn't closed: memory aside, the rules in the order in which they are tried.
#[derive(Clone, Copy, Debug, PartialEq, Eq)]
pub enum TriCloseRefusal {
    /// There is no memory left. It may come at any tree.
    Memory,
    /// The plant closes: at the side at this place of the contour.
    Closes { side: u32 },
    /// The plant is free, and doesn't directly follow the free stem before it, which stands at this place of the contour.
    Follows { stem: u32 },
}

impl From<AllocError> for TriCloseRefusal {
    ghost from_gives = { λ _ refusal. refusal ≡ Memory };

    fn from(_: AllocError) -> TriCloseRefusal {
        TriCloseRefusal::Memory
    }
}

/// The closure of a balanced stem tree (Poulalhon and Schaeffer 2006), in time linear in its letters. The root is dart 0. A tree
/// with `n` nodes gets `3n` edges.
///
/// # Errors
///
/// Where the tree isn't balanced: `Closes` exactly where its plant closes, with the side, and `Follows` exactly where the plant is
/// free and doesn't directly follow a free stem, with the free stem before it. `Memory` may come at any tree.
pub fn tri_close(alloc: Global, tree: &TriTree) -> Result<RootedMap, TriCloseRefusal>
    ensures { IsTriClosing tree.now result }
{
    match why_not_balanced(tree) {
        Some(Imbalance::Closes { side }) => Err(TriCloseRefusal::Closes { side }),
        Some(Imbalance::Follows { stem }) => Err(TriCloseRefusal::Follows { stem }),
        None => Ok(tri_close_balanced(alloc, tree)?),
    }
}

/// The closure of a stem tree that is known to be balanced, as [`tri_close`] gives it.
///
/// # Errors
///
/// Only where there is no memory left.
pub fn tri_close_balanced(alloc: Global, tree: &TriTree) -> Result<RootedMap, AllocError>
    requires { IsBalanced (contour tree.now) }
    ensures { IfOk result (ClosesTo tree.now) }
{
    // Its contract says that they are those of a stem tree.
    let _letters = tree.letters();
    let sigma = whole_rotation(alloc, tree)?;
    Ok(RootedMap::from_rooted_rotation(sigma, 0))
}
