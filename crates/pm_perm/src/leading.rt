//! The leaders of a permutation.
ghost use Rattle.std.specs.Prelude.{◌≡◌, ℕ, ◌+◌, ◌^◌, ◌<◌, not, eqb, length, slice_index, IfOk};
ghost use Rattle.pm_perm.specs.Permutation.{IsPermutationList};
ghost use Rattle.pm_perm.specs.Lists.{IsLeaderList};
ghost use Rattle.pm_perm.specs.steps.Leading.{IsLedBelow};

use std::alloc::{AllocError, Global};

/// The leaders of a permutation of fewer than 2^32 numbers: entry k is the least number in the cycle of k.
///
/// # Errors
///
/// `AllocError` where memory runs out.
pub fn leaders(alloc: Global, values: &[u32]) -> Result<Vec<u32>, AllocError>
    requires few { length values.now < 2 ^ 32 }
    requires permutation { IsPermutationList values.now }

    ensures { IfOk result (λ v. IsLeaderList values.now v.items) }
{
    let none = values.len() as u32;
    let mut leaders = vec![in alloc; none; values.len()]?;
    write_leaders(values, &mut leaders);
    Ok(leaders)
}

// Writes the leader of each number, where as yet each entry is the length.
fn write_leaders(values: &[u32], leaders: &mut [u32])
    requires few { length values.now < 2 ^ 32 }
    requires permutation { IsPermutationList values.now }
    requires leaders_length { length leaders.old ≡ length values.now }
    requires none { (k : ℕ) → k < length values.now → slice_index leaders.old k ≡ length values.now }

    ensures { IsLeaderList values.now leaders.new }
{
    'starts: for start in 0..values.len() {
        if leaders[start] as usize == values.len() {
            lead_cycle(values, leaders, start);
        }
    }
}

// Writes the leader into each entry of its cycle, where the cycles with lesser leaders are written already.
fn lead_cycle(values: &[u32], leaders: &mut [u32], start: usize)
    requires few { length values.now < 2 ^ 32 }
    requires permutation { IsPermutationList values.now }
    requires leaders_length { length leaders.old ≡ length values.now }
    requires inside { start < length values.now }
    requires led { IsLedBelow values.now start leaders.old }
    requires none { slice_index leaders.old start ≡ length values.now }

    ensures { IsLedBelow values.now (start + 1) leaders.new }
{
    let mut at = start;
    'walk: while leaders[at] as usize == values.len() {
        leaders[at] = start as u32;
        at = values[at] as usize;
    }
}
