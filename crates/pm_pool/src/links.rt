//! The lists of a pool.
ghost use Rattle.std.specs.Prelude.{◌≡◌, ◌<◌, ◌^◌, length, slice_index, IfOk};
ghost use Rattle.pm_perm.specs.Lists.{IsInverseList};
ghost use Rattle.pm_perm.specs.Permutation.{IsPermutationList};
ghost use Rattle.pm_pool.specs.steps.Links.{AreNumbers, IsRelinked};

use std::alloc::{AllocError, Global};

/// Exchanges the values at two places of a permutation of fewer than 2^32 numbers, and keeps its inverse.
pub fn relink(next: &mut [u32], prev: &mut [u32], a: u32, b: u32)
    requires few { length next.old < 2 ^ 32 }
    requires permutation { IsPermutationList next.old }
    requires inverse { IsInverseList next.old prev.old }
    requires first_inside { a < length next.old }
    requires second_inside { b < length next.old }

    ensures { IsRelinked next.old next.new prev.new a b }
{
    next.swap(a as usize, b as usize);
    let after_a = next[a as usize];
    let after_b = next[b as usize];
    prev[after_a as usize] = a;
    prev[after_b as usize] = b;
}

/// Writes the numbers from 0 on, fewer than 2^32.
pub fn write_numbers(numbers: &mut [u32])
    requires { length numbers.old < 2 ^ 32 }
    ensures { AreNumbers numbers.new (length numbers.old) }
{
    'numbers: for k in 0..numbers.len() {
        numbers[k] = k as u32;
    }
}

/// The numbers from 0 on, as many as that.
///
/// # Errors
///
/// `AllocError` where memory runs out.
pub fn numbers_below(alloc: Global, size: u32) -> Result<Vec<u32>, AllocError>
    ensures { IfOk result (λ numbers. AreNumbers numbers.items size) }
{
    let mut numbers = vec![in alloc; 0; size as usize]?;
    write_numbers(&mut numbers);
    Ok(numbers)
}
