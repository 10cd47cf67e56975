//! From a code to the permutation that has it.
ghost use Rattle.std.specs.Prelude.{◌≡◌, ◌*◌, ◌^◌, ◌<◌, ◌≤◌, min, length, IfOk};
ghost use Rattle.std.specs.Int.{IsPowerOfTwo};
ghost use Rattle.pm_lehmer.specs.Lehmer.{IsArrangementCode, IsArrangementOf, IsOnlyArrangementOf};
ghost use Rattle.pm_lehmer.specs.steps.Held.{IsHeld};

use crate::sets::{fill, remove, words_for};
use std::alloc::{AllocError, Global};

/// The one permutation of the numbers from 0 on that has this code. There are fewer than 2^32 entries, and each is
/// below the number of entries from it on.
///
/// # Errors
///
/// `AllocError` where memory runs out.
pub fn arrange(alloc: Global, code: &[u64]) -> Result<Vec<u32>, AllocError>
    requires few { length code.now < 2 ^ 32 }
    requires is_code { IsArrangementCode code.now }

    ensures arranged { IfOk result (λ v. IsArrangementOf code.now v.items) }
    ensures only { IfOk result (λ v. IsOnlyArrangementOf code.now v.items) }
    ensures length { IfOk result (λ v. length v.items ≡ length code.now) }
{
    let many_words = words_for(code.len());
    let mut words = vec![in alloc; 0u64; many_words]?;
    let mut counts = vec![in alloc; 0u32; many_words]?;
    let mut arrangement = vec![in alloc; 0u32; code.len()]?;
    fill(&mut words, &mut counts, code.len());
    take_each(code, &mut words, &mut counts, &mut arrangement);
    Ok(arrangement)
}

// Writes at each place the number that has as many smaller ones left as the code says there.
fn take_each(code: &[u64], words: &mut [u64], counts: &mut [u32], arrangement: &mut [u32])
    requires few { length code.now < 2 ^ 32 }
    requires is_code { IsArrangementCode code.now }
    requires as_long { length words.old ≡ length counts.old }
    requires power { IsPowerOfTwo (length counts.old) }
    requires few_words { length counts.old ≤ 2 ^ 32 }
    requires enough { length code.now ≤ 64 * length words.old }
    requires arrangement_length { length arrangement.old ≡ length code.now }
    requires all_held { IsHeld words.old counts.old (λ number. min number (length code.now)) }

    ensures arranged { IsArrangementOf code.now arrangement.new }
    ensures only { IsOnlyArrangementOf code.now arrangement.new }
{
    'places: for (place, rank) in code.iter().enumerate() {
        arrangement[place] = remove(words, counts, *rank as usize) as u32;
    }
}
