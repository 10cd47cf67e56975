//! The profile of a tree: how many of its nodes have which degree.
ghost use Rattle.std.specs.Prelude.{◌<◌, ◌^◌, IfOk, length};
ghost use Rattle.pm_trees.specs.Blossoming.{IsBlossoming};
ghost use Rattle.pm_trees.specs.Degrees.{AreListed, IsProfileOf};
ghost use Rattle.pm_trees.specs.steps.Counts.{AreCounts};

use crate::profile::Profile;
use crate::tree::Tree;
use pm_brackets::{CLOSE, OPEN};
use pm_limits::MAX_DEGREE;
use std::alloc::{AllocError, Global};

/// The profile of a tree: the degrees that some node has, in rising order, and of each how many nodes have it.
///
/// # Errors
///
/// Only where there is no memory left.
pub fn profile_of(alloc: Global, tree: &Tree) -> Result<Profile, AllocError>
    ensures { IfOk result (λ profile. IsProfileOf tree.now profile) }
{
    let counts = degree_counts(alloc, tree.letters())?;
    let pairs = listed(alloc, &counts)?;
    Ok(Profile { pairs })
}

/// How many nodes have which degree: entry d counts those of degree d.
fn degree_counts(alloc: Global, word: &[u8]) -> Result<Vec<u32>, AllocError>
    requires { IsBlossoming word.now }
    ensures { IfOk result (λ counts. AreCounts word.now counts.items) }
{
    let mut counts = vec![in alloc; 0u32; MAX_DEGREE as usize + 1]?;
    let mut parents: Vec<u32> = Vec::new(alloc);
    let mut entries = 0;
    'letters: for letter in word {
        if *letter == CLOSE {
            let degree = entries as usize + 1;
            counts[degree] += 1;
            entries = parents.pop().unwrap();
        } else {
            entries += 1;
            if *letter == OPEN {
                parents.push(entries)?;
                entries = 0;
            }
        }
    }
    counts[entries as usize + 1] += 1;
    Ok(counts)
}

/// The numbers from 1 on that have a count other than 0, in rising order, with their counts.
pub(crate) fn listed(alloc: Global, counts: &[u32]) -> Result<Vec<(u32, u32)>, AllocError>
    requires { length counts.now < 2 ^ 32 }
    ensures { IfOk result (λ pairs. AreListed counts.now pairs.items) }
{
    let mut pairs: Vec<(u32, u32)> = Vec::new(alloc);
    'counts: for degree in 1..counts.len() as u32 {
        let count = counts[degree as usize];
        if count > 0 {
            pairs.push((degree, count))?;
        }
    }
    Ok(pairs)
}
