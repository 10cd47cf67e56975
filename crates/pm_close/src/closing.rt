ghost use Rattle.std.specs.Prelude.{◌≡◌, IfOk};
ghost use Rattle.pm_brackets.specs.Word.{IsBracketing};
ghost use Rattle.pm_trees.specs.Word.{contour};
ghost use Rattle.pm_match.specs.Pair.{IsBalanced};
ghost use Rattle.pm_match.specs.Pairing.{IsPairing};
ghost use Rattle.pm_close.specs.Closing.{ClosesTo, IsClosing, IsMapClosing};
ghost use Rattle.pm_close.specs.Closure.{IsClosed};
ghost use Rattle.pm_close.specs.steps.Numbered.{IsNumbered};
ghost use Rattle.pm_close.specs.declared.closing.CloseRefusal.TheVariants.{Memory};

use crate::joining::twins_of;
use crate::levels::{Levels, levels_of};
use crate::one_pass::closed_rotation;
use crate::rotation::rotation_of;
use pm_map::{RootedMap, darts_of};
use pm_match::{Pairing, matching, plant_bud};
use pm_trees::{Tree, brackets};
use std::alloc::{AllocError, Global};

/// Why a tree wasn't closed.
#[derive(Clone, Copy, Debug, PartialEq, Eq)]
pub enum CloseRefusal {
    /// There is no memory left. It may come at any tree.
    Memory,
    /// The plant is in a pair with this bud, a place of the contour.
    NotBalanced { bud: u32 },
}

impl From<AllocError> for CloseRefusal {
    ghost from_gives = { λ _ refusal. refusal ≡ Memory };

    fn from(_: AllocError) -> CloseRefusal {
        CloseRefusal::Memory
    }
}

/// A closed tree.
#[derive(Drop)]
pub struct Closed {
    /// The closure (Schaeffer 1997). Its root is dart 0. Edges are numbered in the order of their first places along the
    /// contour, and the first place of the k-th edge, from 0, is dart `2k`.
    pub map: RootedMap,
    /// The level of each dart.
    pub levels: Levels,
}

/// Closes a balanced tree, in time linear in its letters.
///
/// # Errors
///
/// `NotBalanced` exactly where the plant is in a pair, with the bud of that pair.
pub fn close_tree(alloc: Global, tree: &Tree) -> Result<Closed, CloseRefusal>
    ensures { IsClosing tree.now result }
{
    if let Some(bud) = plant_bud(tree) {
        return Err(CloseRefusal::NotBalanced { bud });
    }
    let across = brackets(alloc, tree)?;
    let pairing = matching(alloc, tree)?;
    Ok(close_paired(alloc, tree, &across, &pairing)?)
}

/// The closure of a balanced tree without its levels, in one pass along its letters, after one that finds the plant's bud.
///
/// # Errors
///
/// `NotBalanced` exactly where the plant is in a pair, with the bud of that pair, or `Memory`, which may come at any tree.
pub fn close_map(alloc: Global, tree: &Tree) -> Result<RootedMap, CloseRefusal>
    ensures { IsMapClosing tree.now result }
{
    match plant_bud(tree) {
        Some(bud) => Err(CloseRefusal::NotBalanced { bud }),
        None => Ok(close_balanced(alloc, tree)?),
    }
}

/// The map of a tree that is known to be balanced, in one pass along its letters: the plant's bud isn't looked for, and no
/// levels are made.
///
/// # Errors
///
/// Only where there is no memory left.
pub fn close_balanced(alloc: Global, tree: &Tree) -> Result<RootedMap, AllocError>
    requires { IsBalanced (contour tree.now) }
    ensures { IfOk result (IsClosed (contour tree.now)) }
{
    let letters = tree.letters();
    let sigma = closed_rotation(alloc, letters)?;
    Ok(RootedMap::from_rooted_rotation(sigma, 0))
}

/// Closes a tree that is known to be balanced, whose brackets and pairs are at hand: those that `brackets` and `matching`
/// give.
///
/// # Errors
///
/// Only where there is no memory left.
pub fn close_paired(
    alloc: Global,
    tree: &Tree,
    across: &[u32],
    pairing: &Pairing,
) -> Result<Closed, AllocError>
    requires balanced { IsBalanced (contour tree.now) }
    requires bracketing { IsBracketing (contour tree.now) across.now }
    requires pairing { IsPairing (contour tree.now) pairing.now }
    ensures { IfOk result (ClosesTo (contour tree.now)) }
{
    let letters = tree.letters();
    let numbered = number(alloc, tree, across, pairing)?;
    let levels = levels_of(alloc, letters, &numbered.darts)?;
    Ok(Closed {
        map: numbered.map,
        levels,
    })
}

// The map of a tree, and the dart of each place of the contour.
#[derive(Drop)]
struct Numbered {
    map: RootedMap,
    darts: Vec<u32>,
}

// The map of a tree whose brackets and pairs are at hand.
fn number(
    alloc: Global,
    tree: &Tree,
    across: &[u32],
    pairing: &Pairing,
) -> Result<Numbered, AllocError>
    requires balanced { IsBalanced (contour tree.now) }
    requires bracketing { IsBracketing (contour tree.now) across.now }
    requires pairing { IsPairing (contour tree.now) pairing.now }
    ensures { IfOk result (λ numbered. IsNumbered (contour tree.now) numbered.map numbered.darts.items) }
{
    // Its contract says that they are those of a blossoming tree.
    let _letters = tree.letters();
    let twins = twins_of(alloc, tree, across, pairing)?;
    let darts = darts_of(alloc, &twins)?;
    let sigma = rotation_of(alloc, &darts, across)?;
    Ok(Numbered {
        map: RootedMap::from_rooted_rotation(sigma, 0),
        darts,
    })
}
