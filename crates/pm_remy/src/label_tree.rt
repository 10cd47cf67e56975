ghost use Rattle.std.specs.Prelude.{◌≡◌, ◌≤◌, length, IfOk};
ghost use Rattle.pm_perm.specs.Permutation.{IsPermutationList};
ghost use Rattle.pm_remy.specs.Tree.{labels_of, shape_of};
ghost use Rattle.pm_remy.specs.Words.{IsShape, IsLabelTree, leaves_in, forks_in};

use pm_limits::MAX_EDGES;
use std::alloc::{AllocError, Global};
use std::marker::Model;

/// A binary tree whose leaves have the labels `0` to `n`, each once, for `n` forks. Contracts see it as a tree, a leaf
/// with a label or a fork of two trees. It is kept as its nodes in preorder and its labels from left to right.
#[derive(Drop)]
pub struct LabelTree {
    pub(crate) nodes: Vec<bool>,
    pub(crate) leaf_labels: Vec<u32>,
}

impl Model for LabelTree {
    ghost use Rattle.pm_remy.specs.Tree.{Tree};
    ghost use Rattle.pm_remy.specs.Words.{tree_code, tree_of, IsWritten};

    ghost Value = { Tree };

    ghost coded = { tree_code };

    ghost view = { λ t. tree_of t.nodes.items t.leaf_labels.items };

    ghost invariant = { λ t. IsWritten t.nodes.items t.leaf_labels.items };
}

/// The labels of the tree's leaves from left to right.
///
/// # Errors
///
/// Fails where no memory is left.
pub fn labels(alloc: Global, tree: &LabelTree) -> Result<Vec<u32>, AllocError>
    ensures labels { IfOk result (λ v. v.items ≡ labels_of tree.now) }
    ensures valid { IsLabelTree tree.now }
{
    Vec::from_slice(alloc, &tree.leaf_labels)
}

/// The tree's nodes in preorder, `true` for a fork and `false` for a leaf.
///
/// # Errors
///
/// Fails where no memory is left.
pub fn shape(alloc: Global, tree: &LabelTree) -> Result<Vec<bool>, AllocError>
    ensures { IfOk result (λ v. v.items ≡ shape_of tree.now) }
{
    Vec::from_slice(alloc, &tree.nodes)
}

/// The tree of the same shape with these labels from left to right.
///
/// # Errors
///
/// Fails where no memory is left.
pub fn relabel(alloc: Global, tree: &LabelTree, labels: &[u32]) -> Result<LabelTree, AllocError>
    requires once { IsPermutationList labels.now }
    requires as_many { length labels.now ≡ length (labels_of tree.now) }
    ensures shape { IfOk result (λ t. shape_of t ≡ shape_of tree.now) }
    ensures labels { IfOk result (λ t. labels_of t ≡ labels.now) }
{
    tree_of_shape(alloc, &tree.nodes, labels)
}

/// The tree whose nodes in preorder are `shape`, `true` for a fork and `false` for a leaf, with these labels from left
/// to right.
///
/// # Errors
///
/// Fails where no memory is left.
pub fn tree_of_shape(alloc: Global, shape: &[bool], labels: &[u32]) -> Result<LabelTree, AllocError>
    requires shape { IsShape shape.now }
    requires few { forks_in shape.now ≤ MAX_EDGES }
    requires once { IsPermutationList labels.now }
    requires as_many { length labels.now ≡ leaves_in shape.now }
    ensures shape { IfOk result (λ t. shape_of t ≡ shape.now) }
    ensures labels { IfOk result (λ t. labels_of t ≡ labels.now) }
{
    let nodes = Vec::from_slice(alloc, shape)?;
    let leaf_labels = Vec::from_slice(alloc, labels)?;
    Ok(LabelTree { nodes, leaf_labels })
}
