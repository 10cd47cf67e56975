ghost use Rattle.std.specs.Prelude.{◌≡◌, ◌+◌, ◌*◌, ◌≤◌, length, IfOk};
ghost use Rattle.pm_remy.specs.Growth.{grown, IsChoices, IsGrowth};
ghost use Rattle.pm_remy.specs.steps.Linked.{IsHeld, ArePlaces};

use crate::label_tree::LabelTree;
use crate::levels::by_level;
use crate::links::{add_leaf, words_of};
use crate::ungrowing::read_choices;
use pm_limits::MAX_EDGES;
use pm_perm::inverse;
use std::alloc::{AllocError, Global};

/// From so many choices on the forks are numbered by level before they are walked through: their links no longer fit
/// into a processor's near caches, and a walk in the order of growth would miss them at each fork.
const LEVELED: usize = 1 << 18;

/// The tree that the choices grow. It begins as the leaf `0`. Choice `k`, counted from 1, is below `2 * (2 * k - 1)`:
/// half of it names the node beside which the new leaf `k` is put, and its remainder is the leaf's side, `0` for the
/// right and `1` for the left.
///
/// # Errors
///
/// Fails where no memory is left.
pub fn grow(alloc: Global, choices: &[u64]) -> Result<LabelTree, AllocError>
    requires valid { IsChoices choices.now }
    requires few { length choices.now ≤ MAX_EDGES }
    ensures { IfOk result (λ t. t ≡ grown choices.now) }
{
    let links = walkable_links(alloc, choices)?;
    words_of(alloc, &links)
}

/// The choices that grow the tree.
///
/// # Errors
///
/// Fails where no memory is left.
pub fn ungrow(alloc: Global, tree: &LabelTree) -> Result<Vec<u64>, AllocError>
    ensures { IfOk result (λ v. IsGrowth v.items tree.now) }
{
    let mut choices = vec![in alloc; 0u64; tree.leaf_labels.len() - 1]?;
    read_choices(alloc, &tree.nodes, &tree.leaf_labels, &mut choices)?;
    Ok(choices)
}

/// Links that hold the tree that the choices grow, in an order that suits a walk.
fn walkable_links(alloc: Global, choices: &[u64]) -> Result<Vec<u32>, AllocError>
    requires valid { IsChoices choices.now }
    requires few { length choices.now ≤ MAX_EDGES }
    ensures few { IfOk result (λ v. length v.items ≤ 2 * MAX_EDGES + 1) }
    ensures tree { IfOk result (λ v. IsHeld v.items (grown choices.now)) }
{
    let links = grown_links(alloc, choices)?;
    if choices.len() < LEVELED {
        return Ok(links);
    }
    by_level(alloc, &links)
}

/// The links of the tree that the choices grow. They aren't kept while it grows: they are the inverse of its places.
fn grown_links(alloc: Global, choices: &[u64]) -> Result<Vec<u32>, AllocError>
    requires valid { IsChoices choices.now }
    requires few { length choices.now ≤ MAX_EDGES }
    ensures long { IfOk result (λ v. length v.items ≡ 2 * length choices.now + 1) }
    ensures tree { IfOk result (λ v. IsHeld v.items (grown choices.now)) }
{
    let mut places = vec![in alloc; 0u32; 2 * choices.len() + 1]?;
    add_leaves(choices, &mut places);
    inverse(alloc, &places)
}

/// Puts the nodes of the tree that the choices grow at their places.
fn add_leaves(choices: &[u64], places: &mut [u32])
    requires valid { IsChoices choices.now }
    requires few { length choices.now ≤ MAX_EDGES }
    requires places_long { length places.old ≡ 2 * length choices.now + 1 }
    ensures { ArePlaces places.new (grown choices.now) }
{
    places[0] = 0;
    for k in 0..choices.len() {
        let choice = choices[k];
        add_leaf(places, k + 1, (choice / 2) as usize, choice % 2);
    }
}
