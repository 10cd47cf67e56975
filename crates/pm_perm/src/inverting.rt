//! The inverse of a permutation.
ghost use Rattle.std.specs.Prelude.{◌≡◌, ◌^◌, ◌<◌, length, IfOk};
ghost use Rattle.pm_perm.specs.Permutation.{IsPermutationList};
ghost use Rattle.pm_perm.specs.Lists.{IsInverseList};

use std::alloc::{AllocError, Global};

/// The inverse of a permutation of fewer than 2^32 numbers: at each value it has the place where that value stands.
///
/// # Errors
///
/// `AllocError` where memory runs out.
pub fn inverse(alloc: Global, values: &[u32]) -> Result<Vec<u32>, AllocError>
    requires few { length values.now < 2 ^ 32 }
    requires permutation { IsPermutationList values.now }

    ensures inverse { IfOk result (λ v. IsInverseList values.now v.items) }
    ensures still { IfOk result (λ v. IsPermutationList v.items) }
{
    let mut inverse = vec![in alloc; 0u32; values.len()]?;
    write_places(values, &mut inverse);
    Ok(inverse)
}

// Writes at each value the place where it stands.
fn write_places(values: &[u32], places: &mut [u32])
    requires few { length values.now < 2 ^ 32 }
    requires permutation { IsPermutationList values.now }
    requires places_length { length places.old ≡ length values.now }

    ensures inverse { IsInverseList values.now places.new }
    ensures still { IsPermutationList places.new }
{
    'values: for (place, value) in values.iter().enumerate() {
        places[*value as usize] = place as u32;
    }
}
