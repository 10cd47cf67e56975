//! How many of a collection of numbers stand below a number, in a tree of counts that is kept in one list. The tree is
//! over the halves of the interval from 0 to the length of the list, a power of two: the count at a middle is of the
//! numbers in the first half of its interval. A way down the tree has a step for each level, and no step branches: which
//! half it takes is told by what a difference borrows.
ghost use Rattle.std.specs.Prelude.{◌≡◌, ℕ, ◌+◌, ◌^◌, ◌<◌, ◌≤◌, length, slice_index};
ghost use Rattle.std.specs.Int.{IsPowerOfTwo};
ghost use Rattle.pm_lehmer.specs.steps.Counted.{IsCounted, IsMore};

use crate::bits::if_less;

/// The length of the list for so many numbers.
pub(crate) fn list_length(numbers: usize) -> usize
    requires { numbers < 2 ^ 32 }
    ensures power { IsPowerOfTwo result }
    ensures enough { numbers ≤ result }
    ensures few { result ≤ 2 ^ 32 }
{
    numbers.next_power_of_two()
}

/// Puts a number in so many times, and says how many smaller ones there were.
pub(crate) fn put(counts: &mut [u32], number: usize, many: u32) -> usize
    requires power { IsPowerOfTwo (length counts.old) }
    requires inside { number < length counts.old }
    requires few { length counts.old ≤ 2 ^ 32 }
    requires room { (place : ℕ) → 0 < place → place < length counts.old → slice_index counts.old place + many < 2 ^ 32 }

    ensures smaller { (below : ℕ → ℕ) → IsCounted counts.old below → result + below 0 ≡ below number }
    ensures bounded { result + 2 ^ 32 ≤ 2 ^ 64 }
    ensures counted { (below more : ℕ → ℕ) → IsCounted counts.old below → IsMore number many below more → IsCounted counts.new more }
{
    let mut low = 0;
    let mut width = counts.len();
    let mut smaller = 0;
    'halving: while width > 1 {
        width /= 2;
        let middle = low + width;
        let first_half = counts[middle] as usize;
        smaller += first_half - if_less(number, middle, first_half);
        counts[middle] += if_less(number, middle, many as usize) as u32;
        low = middle - if_less(number, middle, width);
    }
    smaller
}

/// Takes one copy out of the number at this rank: gives the number, and how many of its copies come before that one.
pub(crate) fn take(counts: &mut [u32], rank: usize) -> (usize, usize)
    requires power { IsPowerOfTwo (length counts.old) }
    requires few { length counts.old ≤ 2 ^ 32 }
    requires low { rank < 2 ^ 32 }

    ensures inside { result.0 < length counts.old }
    ensures ranked { (below : ℕ → ℕ) → IsCounted counts.old below → below 0 ≡ 0 → result.1 + below result.0 ≡ rank }
    ensures less { (below : ℕ → ℕ) → IsCounted counts.old below → below 0 ≡ 0 → rank < below (length counts.old) → rank < below (result.0 + 1) }
    ensures counted { (fewer more : ℕ → ℕ) → IsCounted counts.old more → IsMore result.0 1 fewer more → IsCounted counts.new fewer }
{
    let mut low = 0;
    let mut width = counts.len();
    let mut left = rank;
    'halving: while width > 1 {
        width /= 2;
        let middle = low + width;
        let first_half = counts[middle] as usize;
        counts[middle] -= if_less(left, first_half, 1) as u32;
        low = middle - if_less(left, first_half, width);
        left = left + if_less(left, first_half, first_half) - first_half;
    }
    (low, left)
}
