ghost use Rattle.std.specs.Prelude.{◌≡◌, ℕ, ◌<◌, length, vec_len, IfOk};
ghost use Rattle.pm_trees.specs.Word.{contour};
ghost use Rattle.pm_brackets.specs.Word.{IsBracketing};
ghost use Rattle.pm_match.specs.Pairing.{IsPairing};
ghost use Rattle.pm_close.specs.steps.Joining.{IsJoined};
ghost use Rattle.pm_close.specs.steps.Twins.{IsTwinList};

use pm_match::Pairing;
use pm_trees::Tree;
use std::alloc::{AllocError, Global};

// The twin of each place: the other bracket, the other place of the pair, or the other free leaf.
pub(crate) fn twins_of(
    alloc: Global,
    tree: &Tree,
    across: &[u32],
    pairing: &Pairing,
) -> Result<Vec<u32>, AllocError>
    requires bracketing { IsBracketing (contour tree.now) across.now }
    requires pairing { IsPairing (contour tree.now) pairing.now }
    ensures { IfOk result (λ twins. IsTwinList (contour tree.now) twins.items) }
{
    // Read for its clauses: the places are few, and leaves and buds are in balance.
    let _letters = tree.letters();
    let mut twins = Vec::from_slice(alloc, across)?;
    for pair in pairing.pairs() {
        let (bud, leaf) = *pair;
        twins[bud as usize] = leaf;
        twins[leaf as usize] = bud;
    }
    let (first, second) = pairing.free();
    twins[first as usize] = second;
    twins[second as usize] = first;
    Ok(twins)
}
