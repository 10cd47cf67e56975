ghost use Rattle.std.specs.Prelude.{◌<◌, ◌^◌, length};
ghost use Rattle.pm_tri.specs.Reading.{IsAnswer};

use crate::letters::STEM;
use crate::nodes::first_wrong_node;
use crate::tree::{TriTree, TriTreeRefusal};
use pm_brackets::first_fault;
use pm_limits::MAX_EDGES;
use std::alloc::Global;

/// Reads a stem tree from its word, of fewer than 2^32 letters.
///
/// # Errors
///
/// The first rule that the word breaks, in the order of [`TriTreeRefusal`], or `Memory`, which may come at any word.
pub fn read_tri_tree(alloc: Global, word: &[u8]) -> Result<TriTree, TriTreeRefusal>
    requires { length word.now < 2 ^ 32 }
    ensures answer { IsAnswer word.now result }
{
    if let Some(place) = first_fault(alloc, word, &[STEM])? {
        return Err(TriTreeRefusal::Text { place });
    }
    if word.len() > 4 * (MAX_EDGES as usize / 3) - 3 {
        return Err(TriTreeRefusal::TooMany {
            letters: word.len() as u64,
        });
    }
    if let Some(place) = first_wrong_node(alloc, word)? {
        return Err(TriTreeRefusal::Stems { place });
    }
    let letters = Vec::from_slice(alloc, word)?;
    Ok(TriTree { letters })
}
