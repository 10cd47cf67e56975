//! Edges numbered by their first places.
ghost use Rattle.std.specs.Prelude.{◌≡◌, ℕ, ◌<◌, ◌^◌, length, slice_index, IfOk};
ghost use Rattle.pm_map.specs.EdgeNumbers.{IsTwinning, dart_of};

use std::alloc::{AllocError, Global};

/// The dart of each place, where each place has another one as its twin, of fewer than 2^31 places. Edges are numbered in
/// the order of their first places: the first place of the k-th edge, from 0, is dart 2k, and its second one 2k+1.
///
/// # Errors
///
/// Only where there is no memory left.
pub fn darts_of(alloc: Global, twins: &[u32]) -> Result<Vec<u32>, AllocError>
    requires small { length twins.now < 2 ^ 31 }
    requires twinning { IsTwinning (length twins.now) (slice_index twins.now) }
    ensures length { IfOk result (λ darts. length darts.items ≡ length twins.now) }
    ensures each { IfOk result (λ darts. (p : ℕ) → p < length twins.now
        → slice_index darts.items p ≡ dart_of (slice_index twins.now) p) }
{
    let mut darts = Vec::with_capacity(alloc, twins.len())?;
    let mut edges: u32 = 0;
    for place in 0..twins.len() {
        let twin = twins[place] as usize;
        if place < twin {
            darts.push(2 * edges)?;
            edges += 1;
        } else {
            let first: u32 = darts[twin];
            darts.push(first + 1)?;
        }
    }
    Ok(darts)
}
