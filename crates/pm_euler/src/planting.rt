//! Planting: a binary tree with a bud pattern at each fork is a blossoming tree.
ghost use Rattle.std.specs.Prelude.{◌≡◌, suc, ◌+◌, ◌*◌, ◌<◌, ◌≤◌, ◌^◌, All, IfOk, length};
ghost use Rattle.pm_limits.specs.declared.TheConstants.{MAX_EDGES};
ghost use Rattle.pm_remy.specs.Tree.{leaves};
ghost use Rattle.pm_remy.specs.Words.{forks_in};
ghost use Rattle.pm_euler.specs.Planted.{IsPlanted, kinds_of_shape};

use pm_planting::{Kind, plant_plane};
use pm_remy::{LabelTree, shape};
use pm_trees::Tree;
use std::alloc::{AllocError, Global};

/// The blossoming tree whose nodes are the tree's forks, planted above the root fork: each fork has the bud pattern of its
/// rank, one for each fork in preorder, with its left side in the first slot and its right side in the second one. It is a
/// plane tree whose nodes all have half degree 2.
///
/// # Errors
///
/// Only where there is no memory left.
pub(crate) fn plant(alloc: Global, tree: &LabelTree, ranks: &[u64]) -> Result<Tree, AllocError>
    requires forks { leaves tree.now ≡ suc (length ranks.now) }
    requires some { 0 < length ranks.now }
    requires few { 2 * length ranks.now ≤ MAX_EDGES }
    requires ranks { All (λ rank. rank < 3) ranks.now }
    ensures { IfOk result (λ word. IsPlanted tree.now ranks.now word) }
{
    let nodes = shape(alloc, tree)?;
    let kinds = kinds_of_shape(alloc, &nodes, ranks)?;
    let planted = plant_plane(alloc, &kinds)?;
    Ok(planted)
}

/// The kinds of the objects of a shape in preorder, with a rank for each fork.
fn kinds_of_shape(alloc: Global, nodes: &[bool], ranks: &[u64]) -> Result<Vec<Kind>, AllocError>
    requires { length ranks.now ≡ forks_in nodes.now }
    ensures { IfOk result (λ kinds. kinds.items ≡ kinds_of_shape nodes.now ranks.now) }
{
    let mut next = 0;
    let mut kinds = Vec::with_capacity(alloc, nodes.len())?;
    'nodes: for node in nodes {
        if !*node {
            kinds.push(Kind::Leaf)?;
            continue 'nodes;
        }
        kinds.push(Kind::Node {
            half: 2,
            rank: ranks[next],
        })?;
        next += 1;
    }
    Ok(kinds)
}
