//! Replanting: the same plane tree, planted at another of its stems.
ghost use Rattle.std.specs.Prelude.{◌*◌, ◌<◌, IfOk};
ghost use Rattle.pm_tri.specs.Replanting.{IsAlike, IsReplanted};
ghost use Rattle.pm_tri.specs.StemTree.{nodes};

use crate::letters::STEM;
use crate::tree::TriTree;
use pm_brackets::{nth_letter, turned};
use std::alloc::{AllocError, Global};

/// The same plane tree, planted at the stem of this number, which is below twice the number of nodes: stems are numbered
/// from 0 along the contour, and stem 0 is the plant.
///
/// The contour of the answer is that of the tree, read cyclically from that stem on. Stems keep their letters; of the two
/// brackets of an edge the one that is met first becomes the `(`, and the other one the `)`.
///
/// # Errors
///
/// Only where there is no memory left.
pub fn tri_replant(alloc: Global, tree: &TriTree, stem: u32) -> Result<TriTree, AllocError>
    requires { stem < 2 * nodes tree.now }
    ensures replanted { IfOk result (λ replanted. IsReplanted tree.now stem replanted) }
    ensures alike { IfOk result (λ replanted. IsAlike tree.now replanted) }
{
    let word = tree.letters();
    let start = nth_letter(word, STEM, stem);
    let letters = turned(alloc, STEM, word, start)?;
    Ok(TriTree { letters })
}
