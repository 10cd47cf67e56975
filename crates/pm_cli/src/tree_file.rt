ghost use Rattle.std.specs.Prelude.{IfOk};
ghost use Rattle.pm_cli.specs.TreeFile.{IsTreeLine};

use pm_trees::Tree;
use std::alloc::{AllocError, Global};

/// The tree file of the tree.
pub(crate) fn tree_text(alloc: Global, tree: &Tree) -> Result<Vec<u8>, AllocError>
    ensures { IfOk result (λ text. IsTreeLine tree.now text.items) }
{
    let mut text = Vec::new(alloc);
    text.extend_from_slice(b"tree ")?;
    text.extend_from_slice(tree.letters())?;
    text.push(b'\n')?;
    Ok(text)
}
