ghost use Rattle.std.specs.Prelude.{◌<◌, ◌^◌, length};
ghost use Rattle.pm_trees.specs.Reading.{IsAnswer};

use crate::letters::{BUD, LEAF};
use crate::nodes::node_faults;
use crate::tree::{Tree, TreeRefusal};
use pm_brackets::first_fault;
use pm_limits::MAX_EDGES;
use std::alloc::Global;

/// Reads a tree from its word, of fewer than 2^32 letters.
///
/// # Errors
///
/// The first rule that the word breaks, in the order of [`TreeRefusal`], or `Memory`, which may come at any word.
pub fn read_tree(alloc: Global, word: &[u8]) -> Result<Tree, TreeRefusal>
    requires { length word.now < 2 ^ 32 }
    ensures answer { IsAnswer word.now result }
{
    if let Some(place) = first_fault(alloc, word, &[LEAF, BUD])? {
        return Err(TreeRefusal::Text { place });
    }
    if word.len() >= 2 * MAX_EDGES as usize {
        return Err(TreeRefusal::TooMany {
            letters: word.len() as u64,
        });
    }
    let faults = node_faults(alloc, word)?;
    if let Some(place) = faults.degree {
        return Err(TreeRefusal::Degree { place });
    }
    if let Some(place) = faults.buds {
        return Err(TreeRefusal::Buds { place });
    }
    let letters = Vec::from_slice(alloc, word)?;
    Ok(Tree { letters })
}
