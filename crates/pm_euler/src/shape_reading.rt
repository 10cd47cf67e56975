//! From a blossoming tree whose nodes all have degree 4 back to the binary tree and the bud patterns.
ghost use Rattle.std.specs.Prelude.{◌≡◌, ℕ, IfOk, length};
ghost use Rattle.pm_planting.specs.Kinds.{IsWordOfKinds};
ghost use Rattle.pm_remy.specs.Words.{forks_in};
ghost use Rattle.pm_trees.specs.Blossoming.{IsBlossoming};
ghost use Rattle.pm_trees.specs.Degrees.{nodes_of};
ghost use Rattle.pm_euler.specs.Planted.{kinds_of_shape};

use pm_planting::{Kind, kinds_of_tree};
use pm_trees::Tree;
use std::alloc::{AllocError, Global};

/// The nodes of a binary tree in preorder, `true` for a fork and `false` for a leaf, and the ranks of its forks' bud
/// patterns in preorder.
#[derive(Drop)]
pub(crate) struct ShapeAndRanks {
    pub(crate) nodes: Vec<bool>,
    pub(crate) ranks: Vec<u64>,
}

/// The shape and the ranks of which the tree is planted.
pub(crate) fn shape_and_ranks(alloc: Global, tree: &Tree) -> Result<ShapeAndRanks, AllocError>
    requires blossoming { IsBlossoming tree.now }
    requires degrees { (degree : ℕ) → (degree ≡ 4 → ⊥) → nodes_of tree.now degree ≡ 0 }
    ensures as_many { IfOk result (λ read. length read.ranks.items ≡ forks_in read.nodes.items) }
    ensures planted { IfOk result (λ read. IsWordOfKinds (kinds_of_shape read.nodes.items read.ranks.items) tree.now) }
{
    let kinds = kinds_of_tree(alloc, tree)?;
    let mut nodes = Vec::with_capacity(alloc, kinds.len())?;
    let mut ranks = Vec::with_capacity(alloc, kinds.len() / 2)?;
    'kinds: for kind in &kinds {
        let Kind::Node { rank, .. } = *kind else {
            nodes.push(false)?;
            continue 'kinds;
        };
        nodes.push(true)?;
        ranks.push(rank)?;
    }
    Ok(ShapeAndRanks { nodes, ranks })
}
