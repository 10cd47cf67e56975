ghost use Rattle.std.specs.Prelude.{IfOk};
ghost use Rattle.pm_brackets.specs.Word.{IsBracketing};
ghost use Rattle.pm_trees.specs.Word.{contour};

use crate::tree::Tree;
use pm_brackets::other_brackets;
use std::alloc::{AllocError, Global};

/// For each place of the contour, from the plant on, the other bracket of a bracket, and the place itself of a leaf or a
/// bud.
///
/// # Errors
///
/// Only where there is no memory left.
pub fn brackets(alloc: Global, tree: &Tree) -> Result<Vec<u32>, AllocError>
    ensures { IfOk result (λ other. IsBracketing (contour tree.now) other.items) }
{
    other_brackets(alloc, tree.letters())
}
