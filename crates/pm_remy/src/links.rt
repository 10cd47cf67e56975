ghost use Rattle.std.specs.Prelude.{◌≡◌, ℕ, suc, ◌+◌, ◌-◌, ◌*◌, ◌<◌, ◌≤◌, ◌^◌, length, slice_set, IfOk};
ghost use Rattle.pm_remy.specs.Growth.{grafted};
ghost use Rattle.pm_remy.specs.steps.Linked.{IsHeld, ArePlaces, HavePlaces};
ghost use Rattle.pm_remy.specs.Tree.{Tree, leaves};

use crate::label_tree::LabelTree;
use pm_limits::MAX_EDGES;
use std::alloc::{AllocError, Global};

/// Puts the two sides of a fork at its places.
fn place_sides(places: &mut [u32], fork: usize, left: usize, right: usize)
    requires left_in { left < length places.old }
    requires right_in { right < length places.old }
    requires fork_in { suc fork < 2 ^ 32 }
    ensures { places.new ≡ slice_set (slice_set places.old left fork) right (suc fork) }
{
    places[left] = fork as u32;
    places[right] = (fork + 1) as u32;
}

/// Puts a fork of the node and of the new leaf `label` at the node's place, the leaf on the right where the side is `0`.
pub(crate) fn add_leaf(places: &mut [u32], label: usize, node: usize, side: u64)
    requires label_in { 0 < label }
    requires places_long { 2 * label < length places.old }
    requires places_fit { length places.old < 2 ^ 32 }
    requires node_in { node < 2 * label - 1 }
    requires tree { HavePlaces places.old label }
    ensures { (t : Tree) → ArePlaces places.old t → leaves t ≡ label → ArePlaces places.new (grafted node side label t) }
{
    let leaf = 2 * label;
    let fork = leaf - 1;
    places[fork] = places[node];
    if side == 0 {
        place_sides(places, fork, node, leaf);
    } else {
        place_sides(places, fork, leaf, node);
    }
}

/// The tree that is linked: its nodes are met in preorder, and those that wait are kept with the next one last.
pub(crate) fn words_of(alloc: Global, links: &[u32]) -> Result<LabelTree, AllocError>
    requires few { length links.now ≤ 2 * MAX_EDGES + 1 }
    requires tree { (t : Tree) × IsHeld links.now t }
    ensures { (t : Tree) → IsHeld links.now t → IfOk result (λ u. u ≡ t) }
{
    let mut nodes = Vec::with_capacity(alloc, links.len())?;
    let mut leaf_labels = Vec::with_capacity(alloc, links.len() / 2 + 1)?;
    let mut ahead = Vec::new(alloc);
    ahead.push(links[0])?;
    'nodes: while let Some(node) = ahead.pop() {
        if node % 2 == 0 {
            nodes.push(false)?;
            leaf_labels.push(node / 2)?;
        } else {
            nodes.push(true)?;
            let fork = node as usize;
            ahead.push(links[fork + 1])?;
            ahead.push(links[fork])?;
        }
    }
    Ok(LabelTree { nodes, leaf_labels })
}
