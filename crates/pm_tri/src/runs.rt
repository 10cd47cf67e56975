//! The two stems of a stem tree that start its runs.
ghost use Rattle.std.specs.Prelude.{◌≡◌, suc, ◌-◌, ◌%◌, ◌<◌, ◌^◌, IfOk, length};
ghost use Rattle.pm_tri.specs.Runs.{AreRunStarts};
ghost use Rattle.pm_tri.specs.StemTree.{contour};
ghost use Rattle.pm_tri.specs.steps.ReadBack.{IsReadBack, count_of};

use crate::letters::STEM;
use crate::tree::TriTree;
use pm_words::good_starts;
use std::alloc::{AllocError, Global};

/// One up for a side, one down for a stem.
fn count_of(letter: u8) -> i32
    ensures { result ≡ count_of letter }
{
    if letter == STEM { -1 } else { 1 }
}

/// The counts of the contour's letters, from the last one to the plant.
fn counts_backwards(alloc: Global, word: &[u8]) -> Result<Vec<i32>, AllocError>
    requires { length word.now < 2 ^ 31 }
    ensures { IfOk result (λ counts. IsReadBack (contour word.now) counts.items) }
{
    let mut counts: Vec<i32> = Vec::with_capacity(alloc, word.len() + 1)?;
    'letters: for index in (0..word.len()).rev() {
        counts.push(count_of(word[index]))?;
    }
    counts.push(count_of(STEM))?;
    Ok(counts)
}

/// The place behind the corner with which the contour, read backwards, begins at this entry.
fn place_behind(places: u32, entry: u32) -> u32
    requires entry { entry < places }
    requires few { places < 2 ^ 32 - 1 }
    ensures { result ≡ suc (places - entry) % places }
{
    (places - entry + 1) % places
}

/// The places of the two stems that start runs, in rising order: read backwards, with sides as 1 and stems as -1, the
/// contour has two good starts for 2, and each tells one.
///
/// # Errors
///
/// Only where there is no memory left.
pub fn run_starts(alloc: Global, tree: &TriTree) -> Result<(u32, u32), AllocError>
    ensures { IfOk result (λ starts. AreRunStarts (contour tree.now) starts.0 starts.1) }
{
    let word = tree.letters();
    let counts = counts_backwards(alloc, word)?;
    let starts = good_starts(alloc, &counts, 2)?;
    let places = word.len() as u32 + 1;
    let one = place_behind(places, starts[0]);
    let other = place_behind(places, starts[1]);
    Ok((one.min(other), one.max(other)))
}
