ghost use Rattle.std.specs.Prelude.{◌≡◌, ℕ, suc, ◌%◌, ◌<◌, length, slice_index, IfOk};
ghost use Rattle.pm_perm.specs.Permutation.{IsPermutationList};

use std::alloc::{AllocError, Global};

// The rotation of the darts: after the dart of a place comes the dart of the place behind the one across.
pub(crate) fn rotation_of(
    alloc: Global,
    darts: &[u32],
    across: &[u32],
) -> Result<Vec<u32>, AllocError>
    requires same_length { length across.now ≡ length darts.now }
    requires permutation { IsPermutationList darts.now }
    requires within { (p : ℕ) → p < length across.now → slice_index across.now p < length across.now }
    ensures length { IfOk result (λ sigma. length sigma.items ≡ length darts.now) }
    ensures each { IfOk result (λ sigma. (p : ℕ) → p < length darts.now
        → slice_index sigma.items (slice_index darts.now p)
        ≡ slice_index darts.now (suc (slice_index across.now p) % length darts.now)) }
{
    let count = darts.len();
    let mut sigma = vec![in alloc; 0; count]?;
    for place in 0..count {
        let next = (across[place] as usize + 1) % count;
        sigma[darts[place] as usize] = darts[next];
    }
    Ok(sigma)
}
