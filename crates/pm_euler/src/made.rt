//! What the first step of sampling gives.
use pm_trees::Tree;

/// A blossoming tree, and the rest that the choices tell beside it.
#[derive(Drop)]
pub(crate) struct Made {
    pub(crate) tree: Tree,
    pub(crate) rest: Vec<u64>,
}
